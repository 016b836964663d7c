// The state after each answer (01, Receive 3 to 6).

#![tactic(auto)]

ghost use Rattle.std.specs.Prelude.{◌≡◌, Bool, true, ◌+◌, ◌≤◌, length};
ghost use Rattle.end_state.specs.Update.{with_mode, with_discards, with_gathered};
ghost use Rattle.end_state.specs.declared.Mode.TheVariants.{Run};
ghost use Rattle.end_state.specs.Refusals.{store_is, sound};
ghost use Rattle.receive_answer.specs.Answers.{mode_answer};
ghost use Rattle.receive_state.specs.Effects.{waiting as waiting_of, discarded as discarded_of, down as down_of, ahead_in, end_after as end_after_of};

use end_state::{End, Mode};
use flit_number::FlitCount;
use flit_read::Fields;
use receive_answer::{Answer, Cause};

// Damage, or ahead in mode run.
#[tactic(auto, unfolding(crate::specs::Effects::waiting))]
fn waiting(e: End) -> End
    ensures { result ≡ waiting_of e }
{
    End {
        gathered: FlitCount(0),
        discards: 0,
        pending: true,
        mode: Mode::Wait,
        ..e
    }
}

// One flit more that was not taken; at 64 replay becomes pending.
#[tactic(auto, unfolding(crate::specs::Effects::discarded))]
fn discarded(e: End) -> End
    requires { e.discards ≤ 63 }
    ensures { result ≡ discarded_of e }
{
    let count = e.discards + 1;
    if count == 64 {
        End {
            discards: 0,
            pending: true,
            ..e
        }
    } else {
        End {
            discards: count,
            ..e
        }
    }
}

// Going down changes only mode and cause.
fn down(e: End, cause: Cause) -> End
    ensures { result ≡ down_of cause e }
{
    End {
        cause: u8::from(cause),
        mode: Mode::Down,
        ..e
    }
}

// One data flit more is held.
fn held(e: End) -> End
    requires { e.gathered.0 ≤ 8 }
    ensures { result ≡ with_gathered (e.gathered.0 + 1) e }
{
    End {
        gathered: FlitCount(e.gathered.0 + 1),
        ..e
    }
}

// Replayed: mode run, discards 0.
fn running(e: End) -> End
    ensures { result ≡ with_mode Run (with_discards 0 e) }
{
    End {
        discards: 0,
        mode: Mode::Run,
        ..e
    }
}

// Ahead: as damage in mode run, as one more discarded in mode wait. A match, since `ahead_in` goes by mode.
fn ahead(mode: Mode, e: End) -> End
    requires { e.discards ≤ 63 }
    ensures { result ≡ ahead_in mode e }
{
    match mode {
        Mode::Run => waiting(e),
        Mode::Wait => discarded(e),
        Mode::Down => e,
    }
}

// The end after an answer that was found for it: a step for each answer, as document 01 has them, and some take what others do not.
#[tactic(auto, unfolding(crate::specs::Effects::end_after))]
pub fn end_after(answer: Answer, e: End, store: &[u8], f: Fields) -> End
    requires { (store_is e (length store.now) ≡ true) × (sound e store.now ≡ true) × ((b : Bool) × (answer ≡ mode_answer e.mode e f b)) }
    ensures { result ≡ end_after_of answer e store.now f }
{
    match answer {
        Answer::Held => held(e),
        Answer::Delivered(_) => receive_take::delivered(e, store, f),
        Answer::Duplicate => receive_take::closed(e, store, f),
        Answer::Idle => receive_take::idled(e, store, f),
        Answer::Replayed => running(receive_take::replay_taken(e, store, f)),
        Answer::Ahead => ahead(e.mode, receive_take::replay_taken(e, store, f)),
        Answer::Damaged => waiting(e),
        Answer::Discarded => discarded(e),
        Answer::Down(cause) => down(e, cause),
        Answer::Refused(_) | Answer::Skipped => e,
    }
}
