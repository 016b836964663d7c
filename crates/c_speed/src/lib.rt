// An end's operations as speed/ measures them. A state by value does not cross to Rust: each function here builds one from numbers and
// makes many calls from it, each from the same state but for its sequence numbers, which are moved by the turn. The result is a digest:
// of each call the answer and some numbers of the state, and of the last call the whole state. A table that is handed over is not looked
// at: the two functions that take one are linked under these names with these signatures.

#![tactic(auto)]

use end_state::{End, Mode, Refusal};
use flit_number::{FlitCount, SequenceNumber};
use receive_answer::Answer;

#[unsafe(no_mangle)]
pub extern "C" fn end_accepts(turns: u64, state: &[u64; 16], store: &mut [u8], unit: &[u8]) -> u64 {
    calls_digest(turns, state, |end, _| {
        let accepted = accept::accept(end, store, unit);
        (verdict_digest(accepted.answer), accepted.end)
    })
}

#[unsafe(no_mangle)]
pub extern "C" fn end_sends(turns: u64, state: &[u64; 16], store: &[u8], output: &mut [u8]) -> u64 {
    calls_digest(turns, state, |end, digest| {
        let sent = send::send(end, store, output, 0, digest);
        (sent_digest(sent.answer), sent.end)
    })
}

#[unsafe(no_mangle)]
pub extern "C" fn end_sends_with(
    _t: &[u64; 256],
    turns: u64,
    state: &[u64; 16],
    store: &[u8],
    output: &mut [u8],
) -> u64 {
    end_sends(turns, state, store, output)
}

#[unsafe(no_mangle)]
pub extern "C" fn end_receives(
    turns: u64,
    state: &[u64; 16],
    store: &[u8],
    hold: &mut [u8],
    flit: &[u8],
) -> u64 {
    calls_digest(turns, state, |end, _| {
        let received = receive::receive(end, store, hold, flit);
        (answer_digest(received.answer), received.end)
    })
}

#[unsafe(no_mangle)]
pub extern "C" fn end_receives_with(
    _t: &[u64; 256],
    turns: u64,
    state: &[u64; 16],
    store: &[u8],
    hold: &mut [u8],
    flit: &[u8],
) -> u64 {
    end_receives(turns, state, store, hold, flit)
}

// Many calls, each with the digest so far: of each the number of its answer, and the state after it.
fn calls_digest<F: FnMut(End, u64) -> (u64, End)>(turns: u64, state: &[u64; 16], mut call: F) -> u64
    requires { F.IsAlwaysCallable call }
{
    let start = state_of(state);
    let mut end = start;
    let mut digest = 0;
    for turn in (0..turns).rev() {
        let (answer, after) = call(at_turn(start, turn + 1), digest);
        end = after;
        digest = state_digest(mixed(digest, answer), end);
    }
    whole_digest(digest, end)
}

// The state of sixteen numbers: those of the ring, of receiving, the sequence numbers, and the marks. It is up, and has no cause.
fn state_of(s: &[u64; 16]) -> End {
    End {
        information: [0; 8],
        capacity: FlitCount(s[0] as usize),
        first: s[1] as usize,
        held: FlitCount(s[2] as usize),
        kept: FlitCount(s[3] as usize),
        owed: FlitCount(s[4] as usize),
        gathered: FlitCount(s[5] as usize),
        untold: FlitCount(s[6] as usize),
        discards: s[7] as usize,
        oldest: number(s[8]),
        cursor: number(s[9]),
        sent: number(s[10]),
        acknowledged: number(s[11]),
        wanted: number(s[12]).into(),
        position: number(s[13]),
        stalled: s[14] == 1,
        pending: s[15] == 1,
        cause: 0,
        mode: Mode::Run,
    }
}

// The last 16 bits, so no From.
fn number(x: u64) -> SequenceNumber {
    SequenceNumber((x % 65536) as u16)
}

// The state with every sequence number moved.
fn at_turn(e: End, turn: u64) -> End {
    let by = FlitCount(turn as usize);
    End {
        oldest: flit_number::number_after(e.oldest, by),
        cursor: flit_number::number_after(e.cursor, by),
        sent: flit_number::number_after(e.sent, by),
        acknowledged: flit_number::number_after(e.acknowledged, by),
        wanted: flit_number::number_after(e.wanted.into(), by).into(),
        position: flit_number::number_after(e.position, by),
        ..e
    }
}

fn mixed(digest: u64, x: u64) -> u64 {
    digest.rotate_left(7) ^ x
}

// Some numbers of a state.
fn state_digest(digest: u64, e: End) -> u64 {
    let numbers = e.wanted.0 as u64 ^ ((e.cursor.0 as u64) << 16);
    mixed(
        digest,
        numbers ^ ((e.held.0 as u64) << 32) ^ ((e.untold.0 as u64) << 48),
    )
}

// The whole state. It becomes a part of what calls it: apart, it would have each turn copy the information once more, which is read here alone.
// One chain of all four would be copied by a `memcpy`, which the archive would need from outside.
#[inline(always)]
fn whole_digest(digest: u64, e: End) -> u64 {
    let counts = [
        e.capacity.0,
        e.first,
        e.held.0,
        e.kept.0,
        e.owed.0,
        e.gathered.0,
        e.untold.0,
        e.discards,
    ];
    let numbers = [
        e.oldest.0,
        e.cursor.0,
        e.sent.0,
        e.acknowledged.0,
        e.wanted.0,
        e.position.0,
    ];
    let marks = [
        e.stalled as u64,
        e.pending as u64,
        e.cause as u64,
        e.mode as u64,
    ];
    let counted = e
        .information
        .into_iter()
        .chain(counts.map(|x| x as u64))
        .fold(digest, mixed);
    numbers
        .map(u64::from)
        .into_iter()
        .chain(marks)
        .fold(counted, mixed)
}

fn verdict_digest(answer: Result<(), Refusal>) -> u64 {
    match answer {
        Ok(()) => 16,
        Err(refusal) => refusal.into(),
    }
}

fn sent_digest(answer: Result<FlitCount, Refusal>) -> u64 {
    match answer {
        Ok(flits) => 16 ^ flits.0 as u64,
        Err(refusal) => refusal.into(),
    }
}

fn answer_digest(answer: Answer) -> u64 {
    match answer {
        Answer::Refused(refusal) => refusal.into(),
        Answer::Held => 16,
        Answer::Delivered(data) => 32 ^ data.0 as u64,
        Answer::Duplicate => 48,
        Answer::Idle => 64,
        Answer::Replayed => 80,
        Answer::Ahead => 96,
        Answer::Skipped => 112,
        Answer::Damaged => 128,
        Answer::Discarded => 144,
        Answer::Down(cause) => 160 ^ u8::from(cause) as u64,
    }
}
