// An end with its ticket and how much of its buffers is lent.

#![tactic(auto)]

ghost use Rattle.std.specs.Prelude.{◌≡◌};
ghost use Rattle.ticket.specs.Ticket.{nothing};
ghost use Rattle.drive_side.specs.Side.{after_call};

use end_state::End;
use ticket::Ticket;

// An end with its ticket, the bytes of its store, and how many bytes of store and hold are lent.
#[derive(Clone, Copy)]
pub struct Side {
    pub end: End,
    pub kept: usize,
    pub store: usize,
    pub hold: usize,
    pub ticket: Ticket,
}

// The side that start makes: a ticket of zeros, and both buffers lent at full length.
pub fn fresh(bytes: usize, end: End) -> Side
    ensures { result ≡ record { end = end; kept = bytes; store = bytes; hold = 576; ticket = nothing } }
{
    Side {
        end,
        kept: bytes,
        store: bytes,
        hold: End::HOLD,
        ticket: ticket::fresh(),
    }
}

// The side with another state and ticket.
pub fn after_call(side: Side, end: End, ticket: Ticket) -> Side
    ensures { result ≡ after_call side end ticket }
{
    Side {
        end,
        ticket,
        ..side
    }
}
