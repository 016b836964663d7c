// The fields of control, idle and replay flits, and their places: read here, written in the crate flit_write (01, "Fields"). Nothing above
// these two speaks of a byte or a bit of a flit.

#![tactic(auto)]

pub mod copy;
pub mod place;
pub mod read;

use flit_number::{FlitCount, LastReceived, SequenceNumber};

// What is read of an arriving flit. Which of it counts goes by the run length.
#[derive(Clone, Copy)]
pub struct Fields {
    pub information: u64,
    pub acks: FlitCount,
    pub run: FlitCount,
    pub stall: FlitCount,
    pub previous: FlitCount,
    pub start: SequenceNumber,
    pub last: LastReceived,
    pub stalled: bool,
    pub short: bool,
    pub nack: bool,
}

impl Fields {
    // Run lengths that say what a flit is: 0 to 8 of a control flit, and these two.
    pub const REPLAY: usize = 10;

    pub const IDLE: usize = 15;
}
