// The byte at which each number begins in a flit.
pub const LINK_INFORMATION: usize = 44;

pub const ACKNOWLEDGE_NUMBER: usize = 52;

pub const STARTING_NUMBER: usize = 54;

pub const CONTENT: usize = 56;

// Where each field begins in a DL content, as its factor: bit b is 2 to the power b. A replay flit's bit 96 + b is bit b here.
pub const SECOND_RUN_LENGTH: u64 = 1 << 4;

pub const LINK_ERRORS: u64 = 1 << 8;

pub const SHORT_FLIT_NEXT: u64 = 1 << 18;

pub const DATA_STALLED: u64 = 1 << 19;

pub const NACK: u64 = 1 << 20;

pub const ACK_COUNT: u64 = 1 << 23;

// How many values a run length and an ACK count have.
pub const RUN_LENGTHS: u64 = 16;

pub const ACK_COUNTS: u64 = 32;
