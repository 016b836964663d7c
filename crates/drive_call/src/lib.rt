// What the commands start, accept, send, receive and fill do to an end with its ticket and its kept buffers: a store buffer, of which the
// first bytes are the store, and a hold buffer, of which the first 576 are the hold. All other bytes of the two are 0 between commands, so
// what is lent past the kept bytes is zeros. Each command is a function of the side and of slices of any length, and a method of an end that
// has its buffers. Nothing is printed here.

#![tactic(auto)]

ghost use Rattle.std.specs.Prelude.{[], ◌≡◌, ◌+◌, ◌-◌, ◌≤◌, length, take};
ghost use Rattle.drive_call.specs.Sides.{Clean, repeated, lent_bytes, kept_in, side_answer, side_started, accepts, sends, sends_output, receives, fill_fits, fills_store, fills};

use drive_side::Side;
use end_state::{End, Refusal};
use flit_number::FlitCount;
use receive_answer::Answer;
use std::marker::Model;

// The side after a command, and what it answered.
#[derive(Clone, Copy)]
pub struct Took<A> {
    pub side: Side,
    pub answer: A,
}

// A store and a hold of zeros, a ticket of zeros, both buffers lent at full length, and start with the store. So many bytes of the store's
// buffer were kept.
pub fn start(
    kept: usize,
    store: &mut [u8],
    hold: &mut [u8],
    bytes: usize,
) -> Took<Result<(), Refusal>>
    requires { (kept ≤ length store.old) × (bytes ≤ length store.old) × (576 ≤ length hold.old) × Clean kept store.old × Clean 576 hold.old }
    ensures value { result ≡ side_answer (side_started bytes) }
    ensures store_after { store.new ≡ repeated (length store.old) 0 }
    ensures hold_after { hold.new ≡ repeated (length hold.old) 0 }
{
    clear(store, 0, kept);
    clear(hold, 0, End::HOLD);
    let started = End::start(&store[..bytes]);
    Took {
        side: drive_side::fresh(bytes, started.end),
        answer: started.answer,
    }
}

// Accept with a unit. What it wrote past the kept bytes is cleared.
pub fn accept(side: Side, store: &mut [u8], unit: &[u8]) -> Took<Result<(), Refusal>>
    requires { (side.kept ≤ length store.old) × (side.store ≤ length store.old) × Clean side.kept store.old }
    ensures value { result ≡ side_answer (accepts (kept_in side store.old []) unit.now) }
    ensures store_after { store.new ≡ lent_bytes (length store.old) (accepts (kept_in side store.old []) unit.now).kept.store }
{
    let accepted = accept::accept(side.end, &mut store[..side.store], unit);
    clear(store, side.kept, side.store);
    let flits = FlitCount(unit.len() / 64);
    let counted = ticket::after_accept(side.ticket, accepted.answer, flits);
    Took {
        side: drive_side::after_call(side, accepted.end, counted),
        answer: accepted.answer,
    }
}

// Send with an output of which each byte is 165 before the call.
pub fn send(
    side: Side,
    store: &[u8],
    output: &mut [u8],
    errors: u8,
    information: u64,
) -> Took<Result<FlitCount, Refusal>>
    requires { (side.kept ≤ length store.now) × (side.store ≤ length store.now) × Clean side.kept store.now }
    ensures value { result ≡ side_answer (sends (kept_in side store.now []) (length output.old)) }
    ensures output_after { output.new ≡ sends_output (kept_in side store.now []) (length output.old) errors information }
{
    output.fill(165);
    let lent = &store[..side.store];
    let sent = send::send(side.end, lent, output, errors, information);
    Took {
        side: drive_side::after_call(side, sent.end, side.ticket),
        answer: sent.answer,
    }
}

// Receive with a flit. What it wrote past the kept bytes of the hold is cleared.
pub fn receive(side: Side, store: &[u8], hold: &mut [u8], flit: &[u8]) -> Took<Answer>
    requires { (side.kept ≤ length store.now) × (side.store ≤ length store.now) × Clean side.kept store.now × (576 ≤ length hold.old) × (side.hold ≤ length hold.old) × Clean 576 hold.old }
    ensures value { result ≡ side_answer (receives (kept_in side store.now hold.old) flit.now) }
    ensures hold_after { hold.new ≡ lent_bytes (length hold.old) (receives (kept_in side store.now hold.old) flit.now).kept.hold }
{
    let lent = &store[..side.store];
    let received = receive::receive(side.end, lent, &mut hold[..side.hold], flit);
    clear(hold, End::HOLD, side.hold);
    let counted = ticket::after_receive(side.ticket, received.answer);
    Took {
        side: drive_side::after_call(side, received.end, counted),
        answer: received.answer,
    }
}

// Writes bytes into the store, if all of them are inside it, and says whether they are. There is one way not to be, so it needs no error.
pub fn fill(kept: usize, store: &mut [u8], offset: u64, bytes: &[u8]) -> bool
    requires { (kept ≤ length store.old) × Clean kept store.old }
    ensures value { result ≡ fill_fits kept offset (length bytes.now) }
    ensures store_after { store.new ≡ lent_bytes (length store.old) (fills_store kept (take kept store.old) offset bytes.now) }
{
    if bytes.is_empty() {
        return true;
    }
    let Some(last) = kept.checked_sub(bytes.len()) else {
        return false;
    };
    if (last as u64) < offset {
        return false;
    }
    let inside = &mut store[..kept];
    let from = offset as usize;
    inside[from..from + bytes.len()].copy_from_slice(bytes);
    true
}

// Zeros from one place of a buffer up to another. What lies past both is 0 already, so all past the first place is 0 then.
pub fn clear(buffer: &mut [u8], from: usize, to: usize)
    requires { (from ≤ length buffer.old) × (to ≤ length buffer.old) × Clean (from + (to - from)) buffer.old }
    ensures { buffer.new ≡ lent_bytes (length buffer.old) (take from buffer.old) }
{
    if from < to {
        buffer[from..to].fill(0);
    }
}

// An end with its ticket, in its two buffers. A contract sees the end with its store and its hold, whole.
#[derive(Clone, Copy)]
pub struct BufferedEnd<const STORE: usize, const HOLD: usize> {
    pub side: Side,
    pub store: [u8; STORE],
    pub hold: [u8; HOLD],
}

impl<const STORE: usize, const HOLD: usize> Model for BufferedEnd<STORE, HOLD> {
    ghost use Rattle.std.specs.Prelude.{◌≡◌, length};
    ghost use Rattle.drive_call.specs.Sides.{Kept, Buffered, kept_in};
    ghost use Rattle.drive_call.specs.Whole.{whole_buffer, whole_again};

    ghost Value = { Kept };

    ghost view = { λ e. kept_in e.side e.store e.hold };

    ghost invariant = { λ e. (length e.store ≡ STORE) × (length e.hold ≡ HOLD) × Buffered e.side e.store e.hold };

    ghost inverse = { λ k. record { side = k.side; store = whole_buffer STORE k.store; hold = whole_buffer HOLD k.hold } };

    ghost inverse_ok = { λ e h i. record {
      side = e.side;
      store = whole_again e.store e.side.kept STORE h.0 h.2.kept h.2.store_clean i;
      hold = whole_again e.hold 576 HOLD h.1 h.2.hold_kept h.2.hold_clean i;
    } };
}

impl<const STORE: usize, const HOLD: usize> BufferedEnd<STORE, HOLD> {
    // A store of so many zeros, a hold of zeros, a ticket of zeros, both buffers lent at full length, and start with the store.
    pub fn start(&mut self, bytes: usize) -> Result<(), Refusal>
        requires { bytes ≤ STORE }
        ensures value { result ≡ (side_started bytes).answer }
        ensures kept_after { self.new ≡ (side_started bytes).kept }
    {
        let took = start(self.side.kept, &mut self.store, &mut self.hold, bytes);
        self.side = took.side;
        took.answer
    }

    // Accept with a unit.
    pub fn accept(&mut self, unit: &[u8]) -> Result<(), Refusal>
        ensures value { result ≡ (accepts self.old unit.now).answer }
        ensures kept_after { self.new ≡ (accepts self.old unit.now).kept }
    {
        let took = accept(self.side, &mut self.store, unit);
        self.side = took.side;
        took.answer
    }

    // Send with an output of which each byte is 165 before the call.
    pub fn send(
        &mut self,
        output: &mut [u8],
        errors: u8,
        information: u64,
    ) -> Result<FlitCount, Refusal>
        ensures value { result ≡ (sends self.old (length output.old)).answer }
        ensures kept_after { self.new ≡ (sends self.old (length output.old)).kept }
        ensures output_after { output.new ≡ sends_output self.old (length output.old) errors information }
    {
        let took = send(self.side, &self.store, output, errors, information);
        self.side = took.side;
        took.answer
    }

    // Receive with a flit.
    pub fn receive(&mut self, flit: &[u8]) -> Answer
        ensures value { result ≡ (receives self.old flit.now).answer }
        ensures kept_after { self.new ≡ (receives self.old flit.now).kept }
    {
        let took = receive(self.side, &self.store, &mut self.hold, flit);
        self.side = took.side;
        took.answer
    }

    // Writes bytes into the store, if all of them are inside it, and says whether they are.
    pub fn fill(&mut self, offset: u64, bytes: &[u8]) -> bool
        ensures value { result ≡ (fills self.old offset bytes.now).answer }
        ensures kept_after { self.new ≡ (fills self.old offset bytes.now).kept }
    {
        fill(self.side.kept, &mut self.store, offset, bytes)
    }
}
