// What the commands poke and count set: a field of a state, and a count of a ticket.

#![tactic(auto)]

ghost use Rattle.std.specs.Prelude.{◌≡◌, ◌≤◌, set};
ghost use Rattle.drive_name.specs.Names.{most};
ghost use Rattle.drive_poke.specs.Pokes.{mode_of as mode_of_number, poked as poked_of, with_count as with_count_of};

use drive_name::{EndField, Key};
use end_state::{End, Mode};
use flit_number::{FlitCount, NextWanted, SequenceNumber};
use ticket::Ticket;

// The state with one field set, by the names of the output line.
#[tactic(auto, unfolding(crate::specs::Pokes::poked, drive_name::specs::Names::most))]
pub fn poked(e: End, field: EndField, value: u64) -> End
    requires { value ≤ most field }
    ensures { result ≡ poked_of e field value }
{
    match field {
        EndField::Capacity => End {
            capacity: FlitCount(value as usize),
            ..e
        },
        EndField::First => End {
            first: value as usize,
            ..e
        },
        EndField::Held => End {
            held: FlitCount(value as usize),
            ..e
        },
        EndField::Kept => End {
            kept: FlitCount(value as usize),
            ..e
        },
        EndField::Oldest => End {
            oldest: SequenceNumber(value as u16),
            ..e
        },
        EndField::Cursor => End {
            cursor: SequenceNumber(value as u16),
            ..e
        },
        EndField::Sent => End {
            sent: SequenceNumber(value as u16),
            ..e
        },
        EndField::Acked => End {
            acknowledged: SequenceNumber(value as u16),
            ..e
        },
        EndField::Wanted => End {
            wanted: NextWanted(value as u16),
            ..e
        },
        EndField::Position => End {
            position: SequenceNumber(value as u16),
            ..e
        },
        EndField::Owed => End {
            owed: FlitCount(value as usize),
            ..e
        },
        EndField::Stalled => End {
            stalled: value == 1,
            ..e
        },
        EndField::Data => End {
            gathered: FlitCount(value as usize),
            ..e
        },
        EndField::Untold => End {
            untold: FlitCount(value as usize),
            ..e
        },
        EndField::Mode => End {
            mode: mode_of(value),
            ..e
        },
        EndField::Cause => End {
            cause: value as u8,
            ..e
        },
        EndField::Discards => End {
            discards: value as usize,
            ..e
        },
        EndField::Pending => End {
            pending: value == 1,
            ..e
        },
        EndField::Info(i) => End {
            information: with_place(e.information, i, value),
            ..e
        },
    }
}

// The ticket with one count set. A name for each count, as in `poked`: a field cannot be handed over.
pub fn with_count(ticket: Ticket, key: Key, n: u32) -> Ticket
    ensures { result ≡ with_count_of ticket key n }
{
    match key {
        Key::Accepted => Ticket {
            accepted: n,
            ..ticket
        },
        Key::Delivered => Ticket {
            delivered: n,
            ..ticket
        },
        Key::Damaged => Ticket {
            damaged: n,
            ..ticket
        },
        Key::Duplicate => Ticket {
            duplicate: n,
            ..ticket
        },
        Key::Downs => Ticket { downs: n, ..ticket },
    }
}

// One of the eight places set; there are no others.
fn with_place(mut places: [u64; 8], i: usize, value: u64) -> [u64; 8]
    ensures { result ≡ set places i value }
{
    if i < 8 {
        places[i] = value;
    }
    places
}

// 0 run, 1 wait, 2 down. Not a From<u64>: both types are of other crates, and Rust lets only those write it.
#[tactic(auto, unfolding(crate::specs::Pokes::mode_of))]
fn mode_of(n: u64) -> Mode
    ensures { result ≡ mode_of_number n }
{
    match n {
        0 => Mode::Run,
        1 => Mode::Wait,
        _ => Mode::Down,
    }
}
