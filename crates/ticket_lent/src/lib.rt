// Accept and receive with a ticket that the caller lends and the call alters (01, "The bench ticket"): thin functions over ones that
// count by value.

#![tactic(auto)]

ghost use Rattle.ticket_lent.specs.Counted.{AcceptCounts, ReceiveCounts};

use end_state::{Answered, End, Refusal};
use flit_number::FlitCount;
use receive_answer::Answer;
use ticket::Ticket;

// Accept, with a ticket that is lent: the flits of an accepted unit are those that the end then holds more.
pub fn accept(
    t: &mut Ticket,
    e: End,
    store: &mut [u8],
    unit: &[u8],
) -> Answered<Result<(), Refusal>>
    ensures { AcceptCounts t.old e store.old unit.now result t.new store.new }
{
    let accepted = accept::accept(e, store, unit);
    let flits = FlitCount(accepted.end.held.0.saturating_sub(e.held.0));
    *t = ticket::after_accept(*t, accepted.answer, flits);
    accepted
}

// Receive, with a ticket that is lent.
pub fn receive(
    t: &mut Ticket,
    e: End,
    store: &[u8],
    hold: &mut [u8],
    flit: &[u8],
) -> Answered<Answer>
    ensures { ReceiveCounts t.old e store.now hold.old flit.now result t.new hold.new }
{
    let received = receive::receive(e, store, hold, flit);
    *t = ticket::after_receive(*t, received.answer);
    received
}
