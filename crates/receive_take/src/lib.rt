// The state after a flit that is taken (01, Receive 4 to 6): an idle flit, a control flit, a replay flit. Its acknowledgement counts first.

#![tactic(auto)]

ghost use Rattle.std.specs.Prelude.{◌≡◌, ◌≤◌};
ghost use Rattle.receive_test.specs.Arrivals.{newly_covered};
ghost use Rattle.receive_free.specs.Acknowledge.{Covered};
ghost use Rattle.receive_take.specs.Taken.{idled as idled_of, closed as closed_of, delivered as delivered_of, informed as informed_of, replay_taken as replay_taken_of};

use end_state::End;
use flit_number::{FlitCount, NextWanted};
use flit_read::Fields;

// An idle flit: its acknowledgement counts, and stalled takes its bit. `Covered` is one name for what may be acknowledged; each step asks it of a
// number of its own.
pub fn idled(e: End, store: &[u8], f: Fields) -> End
    requires { Covered e store.now f.acks.0 }
    ensures { result ≡ idled_of e store.now f }
{
    End {
        stalled: f.stalled,
        ..receive_free::acknowledged(e, store, f.acks)
    }
}

// A control flit closes its unit. That the data held is at most 8 is asked where it is added to: one comparison, which a name would not
// make plainer.
#[tactic(auto, unfolding(crate::specs::Taken::closed))]
pub fn closed(e: End, store: &[u8], f: Fields) -> End
    requires { Covered e store.now f.acks.0 × (e.gathered.0 ≤ 8) }
    ensures { result ≡ closed_of e store.now f }
{
    End {
        position: flit_number::number_after(e.position, FlitCount(e.gathered.0 + 1)),
        gathered: FlitCount(0),
        owed: f.run,
        ..idled(e, store, f)
    }
}

// A delivery: wanted moves too, and untold grows by the unit's flits.
#[tactic(auto, unfolding(crate::specs::Taken::delivered))]
pub fn delivered(e: End, store: &[u8], f: Fields) -> End
    requires { Covered e store.now f.acks.0 × (e.gathered.0 ≤ 8) × (e.untold.0 ≤ 1024) }
    ensures { result ≡ delivered_of e store.now f }
{
    let flits = FlitCount(e.gathered.0 + 1);
    let past = flit_number::number_after(e.wanted.into(), flits);
    End {
        wanted: NextWanted::from(past),
        untold: FlitCount(e.untold.0 + flits.0),
        ..closed(e, store, f)
    }
}

// A replay flit: acknowledgement, link information, NACK, position, owed and stalled.
#[tactic(auto, unfolding(crate::specs::Taken::replay_taken))]
pub fn replay_taken(e: End, store: &[u8], f: Fields) -> End
    requires { Covered e store.now (newly_covered e f.last.0) }
    ensures { result ≡ replay_taken_of e store.now f }
{
    let covered = receive_test::newly_covered(e, f);
    let told = informed(receive_free::acknowledged(e, store, covered), f.information);
    End {
        position: f.start,
        gathered: FlitCount(0),
        owed: f.previous,
        stalled: f.stalled,
        ..receive_free::sent_anew(told, f.nack)
    }
}

// The newest link information first, and the oldest goes.
fn informed(e: End, newest: u64) -> End
    ensures { result ≡ informed_of newest e }
{
    let mut information = e.information;
    information.copy_within(0..7, 1);
    information[0] = newest;
    End { information, ..e }
}
