// Receive takes one arriving flit (01, "Receive"). The buffers come in apart, as callers lend them.

#![tactic(auto)]

ghost use Rattle.std.specs.Prelude.{◌≡◌, ◌≤◌, length};
ghost use Rattle.end_state.specs.Ring.{put_at as put_at_of};
ghost use Rattle.receive.specs.Receive.{receive_verdict, receive as receive_of, receive_hold, hold_after as hold_after_of};

use end_state::{Answered, End, Refusal};
use receive_answer::Answer;

// Takes one flit. Only a held flit and a delivery write hold. A refusal changes neither the state nor hold.
#[tactic(auto, using(crate::proofs::Admission::admission))]
pub fn receive(e: End, store: &[u8], hold: &mut [u8], flit: &[u8]) -> Answered<Answer>
    ensures value { result ≡ receive_of e store.now hold.old flit.now }
    ensures hold_after { hold.new ≡ receive_hold e store.now hold.old flit.now }
{
    match verdict(e, store, hold.len(), flit.len()) {
        Err(refusal) => Answered {
            answer: Answer::Refused(refusal),
            end: e,
        },
        Ok(()) => {
            let fields = flit_read::read::fields(flit);
            let answer = receive_answer::answer_flit(e, hold, flit, fields);
            let end = receive_state::end_after(answer, e, store, fields);
            write_hold(answer, e, hold, flit);
            Answered { answer, end }
        }
    }
}

// The refusals of receive, in the table's order.
#[tactic(auto, unfolding(crate::specs::Receive::receive_verdict, end_judge::specs::Judge::judged))]
fn verdict(e: End, store: &[u8], hold: usize, flit: usize) -> Result<(), Refusal>
    ensures { result ≡ receive_verdict e store.now hold flit }
{
    if hold != End::HOLD {
        return Err(Refusal::Store);
    }
    end_judge::judge(e, store)?;
    if flit != End::FLIT {
        return Err(Refusal::Shape);
    }
    if e.mode.is_down() {
        return Err(Refusal::Down);
    }
    Ok(())
}

// Only a held flit and a delivery write hold.
#[tactic(auto, unfolding(crate::specs::Receive::hold_after))]
fn write_hold(answer: Answer, e: End, hold: &mut [u8], flit: &[u8])
    requires { (length hold.old ≡ 576) × (length flit.now ≡ 64) × (e.gathered.0 ≤ 8) }
    ensures { hold.new ≡ hold_after_of answer e hold.old flit.now }
{
    match answer {
        Answer::Held => put_at(hold, e.gathered.0, flit_read::copy::taken(flit)),
        Answer::Delivered(_) => put_at(
            hold,
            e.gathered.0,
            flit_write::bare_control(flit_read::copy::taken(flit)),
        ),
        _ => {}
    }
}

// A flit into the part of hold that starts at 64 times the number already held. Document 01 names this form, a part that is lent on; the flit
// is made here and comes by value, where `end_state::ring::copy_flit` reads one from a buffer.
#[tactic(auto, using(end_state::proofs::Parts::put_is))]
fn put_at(hold: &mut [u8], place: usize, flit: [u8; 64])
    requires { (length hold.old ≡ 576) × (place ≤ 8) }
    ensures { hold.new ≡ put_at_of hold.old place flit }
{
    let from = place * End::FLIT;
    let to = from + End::FLIT;
    flit_read::copy::put(&mut hold[from..to], flit);
}
