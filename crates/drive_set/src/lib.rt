// The commands that only set a part of an end with its ticket: poke, lend and count.

#![tactic(auto)]

ghost use Rattle.std.specs.Prelude.{◌≡◌, ◌≤◌};
ghost use Rattle.drive_name.specs.Names.{most};
ghost use Rattle.drive_set.specs.Settings.{side_poked, side_lent, side_counted};

use drive_name::{EndField, Key};
use drive_side::Side;

// Sets a field of the state. A field and its value come apart, as the command has them, and the one bounds the other by `most`.
#[tactic(auto, unfolding(crate::specs::Settings::side_poked))]
pub fn poke(side: Side, field: EndField, value: u64) -> Side
    requires { value ≤ most field }
    ensures { result ≡ side_poked side field value }
{
    Side {
        end: drive_poke::poked(side.end, field, value),
        ..side
    }
}

// From now on calls get so many bytes of store and hold.
#[tactic(auto, unfolding(crate::specs::Settings::side_lent))]
pub fn lend(side: Side, store: usize, hold: usize) -> Side
    ensures { result ≡ side_lent side store hold }
{
    Side {
        store,
        hold,
        ..side
    }
}

// Sets a count of the ticket.
#[tactic(auto, unfolding(crate::specs::Settings::side_counted))]
pub fn count(side: Side, key: Key, n: u32) -> Side
    ensures { result ≡ side_counted side key n }
{
    Side {
        ticket: drive_poke::with_count(side.ticket, key, n),
        ..side
    }
}
