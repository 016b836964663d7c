// One end of a link: its state, the fresh end and start, what is refused by which number, and below it the ring of places and the walk
// over it (01, "What an end keeps"; "Refusals by number").

#![tactic(auto)]

pub mod ring;
pub mod walk;

ghost use Rattle.std.specs.Prelude.{◌≡◌, length};
ghost use Rattle.end_state.specs.State.{store_fits, fresh as fresh_of, start as start_of, is_wait as is_wait_of, refusal_number, verdict_number as verdict_number_of};
ghost use Rattle.end_state.specs.Refusals.{is_down as is_down_of};

use flit_number::{FlitCount, NextWanted, SequenceNumber};

// Run: flits are taken in order. Wait: a replay flit is waited for. Down: every call but start is refused.
#[derive(Clone, Copy, PartialEq, Eq)]
pub enum Mode {
    Run,
    Wait,
    Down,
}

impl Mode {
    // 5 DOWN.
    pub fn is_down(self) -> bool
        ensures { result ≡ is_down_of self }
    {
        self == Mode::Down
    }

    // Whether a replay flit is waited for.
    pub fn is_wait(self) -> bool
        ensures { result ≡ is_wait_of self }
    {
        self == Mode::Wait
    }
}

// What is refused, by document 01's numbers.
#[derive(Clone, Copy, PartialEq, Eq)]
pub enum Refusal {
    Store = 1,
    State,
    Shape,
    Out,
    Down,
    Run,
    Field,
    Full,
}

impl From<Refusal> for u64 {
    ghost from_gives = { λ refusal n. n ≡ refusal_number refusal };

    fn from(refusal: Refusal) -> u64 {
        refusal as u64
    }
}

// The number of what is refused, or 0.
pub fn verdict_number<A: Copy>(answer: Result<A, Refusal>) -> u64
    ensures { result ≡ verdict_number_of answer }
{
    match answer {
        Ok(_) => 0,
        Err(refusal) => u64::from(refusal),
    }
}

// Fields of one size stand together: a copy then has no gaps.
#[derive(Clone, Copy)]
pub struct End {
    // the newest first
    pub information: [u64; 8],
    // the ring: its places, the first place, the flits held, the data flits of the oldest unit held (none: of the next to accept)
    pub capacity: FlitCount,
    pub first: usize,
    pub held: FlitCount,
    pub kept: FlitCount,
    // receiving: data flits owed, those in hold, flits delivered but not yet acknowledged, flits discarded while waiting
    pub owed: FlitCount,
    pub gathered: FlitCount,
    pub untold: FlitCount,
    pub discards: usize,
    // sending: the oldest flit held (none: the next to accept), the next unit to send, one past the highest ever sent, the first
    // not yet acknowledged
    pub oldest: SequenceNumber,
    pub cursor: SequenceNumber,
    pub sent: SequenceNumber,
    pub acknowledged: SequenceNumber,
    // receiving: the next number wanted, the number of the next arriving TL flit
    pub wanted: NextWanted,
    pub position: SequenceNumber,
    pub stalled: bool,
    pub pending: bool,
    pub cause: u8,
    pub mode: Mode,
}

// What a call answers, and the end after it.
#[derive(Clone, Copy)]
pub struct Answered<A> {
    pub answer: A,
    pub end: End,
}

impl End {
    // The bytes of a flit, of the hold buffer and of the shortest output.
    pub const FLIT: usize = 64;

    pub const HOLD: usize = 576;

    pub const OUTPUT: usize = 640;

    // The places of the smallest store and of the largest.
    pub const LEAST: usize = 9;

    pub const MOST: usize = 1024;

    // The data flits of the longest unit.
    pub const LONGEST: usize = 8;

    // Every number, count and place is 0, no mark is set and the mode is run. No Default: it would be an end of capacity 0, which no store has.
    fn fresh(capacity: FlitCount) -> End
        ensures { result ≡ fresh_of capacity.0 }
    {
        End {
            information: [0; 8],
            capacity,
            first: 0,
            held: FlitCount(0),
            kept: FlitCount(0),
            owed: FlitCount(0),
            gathered: FlitCount(0),
            untold: FlitCount(0),
            discards: 0,
            oldest: SequenceNumber(0),
            cursor: SequenceNumber(0),
            sent: SequenceNumber(0),
            acknowledged: SequenceNumber(0),
            wanted: NextWanted(0),
            position: SequenceNumber(0),
            stalled: false,
            pending: false,
            cause: 0,
            mode: Mode::Run,
        }
    }

    // A fresh end over a lent store.
    pub fn start(store: &[u8]) -> Answered<Result<(), Refusal>>
        ensures { result ≡ start_of (length store.now) }
    {
        let bytes = store.len();
        if is_store(bytes) {
            Answered {
                answer: Ok(()),
                end: End::fresh(FlitCount(bytes / End::FLIT)),
            }
        } else {
            Answered {
                answer: Err(Refusal::Store),
                end: End::fresh(FlitCount(0)),
            }
        }
    }
}

// Whether a store of so many bytes has 9 to 1,024 whole places.
pub fn is_store(bytes: usize) -> bool
    ensures { result ≡ store_fits bytes }
{
    let places = bytes / End::FLIT;
    (bytes % End::FLIT == 0) & (End::LEAST <= places) & (places <= End::MOST)
}
