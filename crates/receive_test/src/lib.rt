// What is asked of an arriving flit (01, Receive 1 to 3): whether it is held, what is checked, damaged and skipped, and what it
// acknowledges.

#![tactic(auto)]

ghost use Rattle.std.specs.Prelude.{◌≡◌, ◌&&◌, ◌≤◌, ◌*◌, length};
ghost use Rattle.crc.specs.Unit.{right};
ghost use Rattle.end_state.specs.State.{is_run};
ghost use Rattle.receive_test.specs.Arrivals.{newly_covered as newly_covered_of, past_sent as past_sent_of, holds as holds_of, closes as closes_of, checked, run_wrong as run_wrong_of, stall_wrong as stall_wrong_of, straddles as straddles_of, damaged as damaged_of, skips as skips_of};

use end_state::{End, Mode};
use flit_number::FlitCount;
use flit_read::Fields;

// In mode run, not stalled and data owed: the flit is held.
pub fn is_held(e: End) -> bool
    ensures { result ≡ (is_run e.mode && holds_of e) }
{
    matches!(e.mode, Mode::Run) && holds(e)
}

// Not stalled and data owed.
#[tactic(auto, unfolding(crate::specs::Arrivals::holds))]
pub fn holds(e: End) -> bool
    ensures { result ≡ holds_of e }
{
    !e.stalled & (e.gathered.0 < e.owed.0)
}

// All owed data is held: the flit closes the unit.
#[tactic(auto, unfolding(crate::specs::Arrivals::closes))]
pub fn closes(e: End) -> bool
    ensures { result ≡ closes_of e }
{
    !e.stalled & (0 < e.owed.0) & (e.gathered.0 == e.owed.0)
}

// The check over the flit with its data where it closes a unit in mode run, else over the flit alone. Hold is bytes that a caller lends, and
// the state says how many flits of it count (document 01).
pub fn checked_right(e: End, hold: &[u8], flit: &[u8]) -> bool
    requires { e.gathered.0 * 64 ≤ length hold.now }
    ensures { result ≡ right (checked e hold.now flit.now) }
{
    if matches!(e.mode, Mode::Run) && closes(e) {
        crc::right_after(&hold[..e.gathered.0 * End::FLIT], flit)
    } else {
        crc::right(flit)
    }
}

// An end and a flit's fields go in apart, here and above: specs/ names them apart, and a struct of the two would be taken apart in each
// clause (`run_wrong_of a.end a.fields`).

// 01, Receive 1, after the check: a closing flit's run length over 8, or under 9 while stalled.
#[tactic(auto, unfolding(crate::specs::Arrivals::run_wrong))]
pub fn run_wrong(e: End, f: Fields) -> bool
    ensures { result ≡ run_wrong_of e f }
{
    (closes(e) & (End::LONGEST < f.run.0)) | (e.stalled & (f.run.0 <= End::LONGEST))
}

// An idle's stalled run length differs from owed.
#[tactic(auto, unfolding(crate::specs::Arrivals::stall_wrong))]
pub fn stall_wrong(e: End, f: Fields) -> bool
    ensures { result ≡ stall_wrong_of e f }
{
    (f.run.0 == Fields::IDLE) & (f.stall.0 != e.owed.0)
}

// The unit would begin before wanted and end after it.
#[tactic(auto, unfolding(crate::specs::Arrivals::straddles))]
pub fn straddles(e: End, f: Fields) -> bool
    ensures { result ≡ straddles_of e f }
{
    let d = flit_number::flits_between(e.position, e.wanted.into());
    (f.run.0 <= End::LONGEST) & (0 < d.0) & (d.0 <= e.gathered.0)
}

// 01, Receive 1.
#[tactic(auto, unfolding(crate::specs::Arrivals::damaged))]
pub fn damaged(e: End, f: Fields, correct: bool) -> bool
    ensures { result ≡ damaged_of e f correct }
{
    !correct | run_wrong(e, f) | stall_wrong(e, f) | straddles(e, f)
}

// 01, Receive 2, which has no name for these run lengths.
#[tactic(auto, unfolding(crate::specs::Arrivals::skips))]
pub fn skips(f: Fields) -> bool
    ensures { result ≡ skips_of f }
{
    matches!(f.run.0, 9 | 11..=14)
}

// The flits that a replay flit newly acknowledges.
#[tactic(auto, unfolding(crate::specs::Arrivals::newly_covered))]
pub fn newly_covered(e: End, f: Fields) -> FlitCount
    ensures { result.0 ≡ newly_covered_of e f.last.0 }
{
    let next = flit_number::next_wanted(f.last);
    flit_number::flits_between(e.acknowledged, next.into())
}

// More flits than were sent and not yet acknowledged.
#[tactic(auto, unfolding(crate::specs::Arrivals::past_sent))]
pub fn past_sent(e: End, flits: FlitCount) -> bool
    ensures { result ≡ past_sent_of e flits.0 }
{
    flit_number::flits_between(e.acknowledged, e.sent).0 < flits.0
}
