// Reading a flit's fields. The places are those of specs/Fields.antt.
ghost use Rattle.std.specs.Prelude.{◌≡◌, length};
ghost use Rattle.flit_read.specs.Bytes.{read};
ghost use Rattle.flit_read.specs.Fields.{content as content_of, replay_content, link_information, run_length, fields_of, acceptable as acceptable_of};

use crate::copy::taken;
use crate::{Fields, place};
use flit_number::{FlitCount, LastReceived, SequenceNumber};

// A flit's DL content, bytes 56 to 63.
pub fn content(flit: &[u8]) -> u64
    requires { length flit.now ≡ 64 }
    ensures { result ≡ content_of flit.now }
{
    u64::from_le_bytes(taken(&flit[place::CONTENT..]))
}

// A replay flit's link information, bytes 44 to 51.
fn information(flit: &[u8]) -> u64
    requires { length flit.now ≡ 64 }
    ensures { result ≡ read link_information (replay_content flit.now) }
{
    u64::from_le_bytes(taken(&flit[place::LINK_INFORMATION..place::ACKNOWLEDGE_NUMBER]))
}

// The run length of a DL content.
pub fn run_length(c: u64) -> FlitCount
    ensures { result.0 ≡ read run_length c }
{
    FlitCount((c % place::RUN_LENGTHS) as usize)
}

// All that is read of an arriving flit.
pub fn fields(flit: &[u8]) -> Fields
    requires { length flit.now ≡ 64 }
    ensures { result ≡ fields_of flit.now }
{
    let c = content(flit);
    let run = run_length(c);
    let second = FlitCount((c / place::SECOND_RUN_LENGTH % place::RUN_LENGTHS) as usize);
    let acks = FlitCount((c / place::ACK_COUNT % place::ACK_COUNTS) as usize);
    let last = taken(&flit[place::ACKNOWLEDGE_NUMBER..place::STARTING_NUMBER]);
    let start = taken(&flit[place::STARTING_NUMBER..place::CONTENT]);
    Fields {
        information: information(flit),
        acks,
        run,
        stall: second,
        previous: second,
        start: SequenceNumber(u16::from_le_bytes(start)),
        last: LastReceived(u16::from_le_bytes(last)),
        stalled: c / place::DATA_STALLED % 2 == 1,
        short: c / place::SHORT_FLIT_NEXT % 2 == 1,
        nack: c / place::NACK % 2 == 1,
    }
}

// Whether a control flit is one that accept takes: run length at most 8, no bit of 63:18 set. The 8 has its name, `LONGEST`, above this crate.
pub fn acceptable(flit: &[u8]) -> bool
    requires { length flit.now ≡ 64 }
    ensures { result ≡ acceptable_of flit.now }
{
    let c = content(flit);
    (c % place::RUN_LENGTHS <= 8) & (c / place::SHORT_FLIT_NEXT == 0)
}
