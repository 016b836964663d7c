// What receive answers (01, Receive 1 to 6): a function of the state, the flit's fields and whether the check is right.

#![tactic(auto)]

ghost use Rattle.std.specs.Prelude.{◌≡◌, ◌≤◌, ◌*◌, length};
ghost use Rattle.crc.specs.Unit.{right};
ghost use Rattle.receive_test.specs.Arrivals.{checked};
ghost use Rattle.receive_answer.specs.Answers.{replay_answer as replay_answer_of, plain_answer as plain_answer_of, run_answer as run_answer_of, wait_answer as wait_answer_of, mode_answer, cause_number, tells};

use end_state::{End, Mode, Refusal};
use flit_number::FlitCount;
use flit_read::Fields;

// Why the link goes down, by document 01's numbers. Receive answers the first four. A state may have any number of a byte, which the last one
// holds.
#[derive(Clone, Copy)]
pub enum Cause {
    // an acknowledgement past what was sent
    PastSent,
    // a previous run length over 8
    LongRun,
    // a short flit next
    ShortNext,
    // more delivered than may be untold
    Untold,
    Other(u8),
}

impl From<Cause> for u8 {
    ghost from_gives = { λ cause n. n ≡ cause_number cause };

    fn from(cause: Cause) -> u8 {
        match cause {
            Cause::PastSent => 1,
            Cause::LongRun => 2,
            Cause::ShortNext => 3,
            Cause::Untold => 4,
            Cause::Other(number) => number,
        }
    }
}

// Document 01 lists refused among receive's answers: an answer is one of eleven, and a Result would only add a level to each match.
#[derive(Clone, Copy)]
pub enum Answer {
    Refused(Refusal),
    Held,
    // a unit, with so many data flits in hold
    Delivered(FlitCount),
    Duplicate,
    Idle,
    Replayed,
    Ahead,
    Skipped,
    Damaged,
    Discarded,
    // gone down
    Down(Cause),
}

// Half of the sequence numbers: d from there on is ahead (01, Receive 6).
const HALF: usize = 32768;

// What an answer tells, in document 01's numbers: of a refusal, of the data flits that it delivered, of the cause of going down; 0 where it
// tells none. Numbers, since the lines that bench and drive print have these numbers.
#[derive(Clone, Copy, Default)]
pub struct Told {
    pub refusal: u64,
    pub delivered: usize,
    pub cause: u8,
}

// The answer to an arriving flit, of which f is what is read. A flit that is held is checked later, with the one that closes its unit.
#[tactic(auto, using(crate::proofs::Found::held_answer))]
pub fn answer_flit(e: End, hold: &[u8], flit: &[u8], f: Fields) -> Answer
    requires { e.gathered.0 * 64 ≤ length hold.now }
    ensures { result ≡ mode_answer e.mode e f (right (checked e hold.now flit.now)) }
{
    if receive_test::is_held(e) {
        return Answer::Held;
    }
    answer_to(e, f, receive_test::checked_right(e, hold, flit))
}

// By mode, as `mode_answer` goes.
fn answer_to(e: End, f: Fields, correct: bool) -> Answer
    ensures { result ≡ mode_answer e.mode e f correct }
{
    match e.mode {
        Mode::Run => run_answer(e, f, correct),
        Mode::Wait => wait_answer(e, f, correct),
        Mode::Down => Answer::Refused(Refusal::Down),
    }
}

// In mode run. Whether the check is right is no field of a flit: it comes of hold too, and goes in beside the fields.
#[tactic(auto, unfolding(crate::specs::Answers::run_answer))]
fn run_answer(e: End, f: Fields, correct: bool) -> Answer
    ensures { result ≡ run_answer_of e f correct }
{
    if receive_test::holds(e) {
        return Answer::Held;
    }
    if receive_test::damaged(e, f, correct) {
        return Answer::Damaged;
    }
    if receive_test::skips(f) {
        return Answer::Skipped;
    }
    if f.run.0 == Fields::REPLAY {
        return replay_answer(e, f);
    }
    plain_answer(e, f)
}

// In mode wait.
#[tactic(auto, unfolding(crate::specs::Answers::wait_answer))]
fn wait_answer(e: End, f: Fields, correct: bool) -> Answer
    ensures { result ≡ wait_answer_of e f correct }
{
    if correct & (f.run.0 == Fields::REPLAY) {
        return replay_answer(e, f);
    }
    Answer::Discarded
}

// 01, Receive 3 and 6, of a replay flit.
#[tactic(auto, unfolding(crate::specs::Answers::replay_answer))]
fn replay_answer(e: End, f: Fields) -> Answer
    ensures { result ≡ replay_answer_of e f }
{
    if f.short {
        return Answer::Down(Cause::ShortNext);
    }
    if End::LONGEST < f.previous.0 {
        return Answer::Down(Cause::LongRun);
    }
    if receive_test::past_sent(e, receive_test::newly_covered(e, f)) {
        return Answer::Down(Cause::PastSent);
    }
    let d = flit_number::flits_between(f.start, e.wanted.into());
    if d.0 < HALF {
        Answer::Replayed
    } else {
        Answer::Ahead
    }
}

// 01, Receive 3 and 5, of an idle or control flit.
#[tactic(auto, unfolding(crate::specs::Answers::plain_answer))]
fn plain_answer(e: End, f: Fields) -> Answer
    ensures { result ≡ plain_answer_of e f }
{
    if f.short {
        return Answer::Down(Cause::ShortNext);
    }
    if receive_test::past_sent(e, f.acks) {
        return Answer::Down(Cause::PastSent);
    }
    if f.run.0 == Fields::IDLE {
        return Answer::Idle;
    }
    if e.position != e.wanted.into() {
        return Answer::Duplicate;
    }
    // the data flits and their control flit; a sum past the largest number is over 1,024 too
    if End::MOST <= e.untold.0.saturating_add(e.gathered.0) {
        return Answer::Down(Cause::Untold);
    }
    Answer::Delivered(e.gathered)
}

// What an answer tells.
pub fn told_by(answer: Answer) -> Told
    ensures { result ≡ tells answer }
{
    match answer {
        Answer::Refused(refusal) => Told {
            refusal: u64::from(refusal),
            ..Told::default()
        },
        Answer::Delivered(data) => Told {
            delivered: data.0,
            ..Told::default()
        },
        Answer::Down(cause) => Told {
            cause: u8::from(cause),
            ..Told::default()
        },
        _ => Told::default(),
    }
}
