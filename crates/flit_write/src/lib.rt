// Writing flits. Each is made as a flit by value, and the check is laid over it last.

#![tactic(auto)]

ghost use Rattle.std.specs.Prelude.{◌≡◌, ◌++◌, ◌+◌, ◌≤◌, if◌then◌else◌, take, drop};
ghost use Rattle.flit_write.specs.Flits.{with_content as with_content_of, bare_control as bare_control_of, control_told as control_told_of, idle_flit as idle_flit_of, replay_flit as replay_flit_of};

use flit_number::{FlitCount, LastReceived, SequenceNumber};
use flit_read::{Fields, copy, place, read};

// The flit with other bytes from byte `at` on.
fn with_bytes<const N: usize>(mut flit: [u8; 64], at: usize, part: [u8; N]) -> [u8; 64]
    requires { at + N ≤ 64 }
    ensures { result ≡ take at flit ++ (part.entry ++ drop (at + N) flit) }
{
    copy::put(&mut flit[at..at + N], part);
    flit
}

// The flit with another DL content.
fn with_content(flit: [u8; 64], c: u64) -> [u8; 64]
    ensures { result ≡ with_content_of flit c }
{
    with_bytes(flit, place::CONTENT, c.to_le_bytes())
}

// A control flit with bits 63:18 zero.
pub fn bare_control(flit: [u8; 64]) -> [u8; 64]
    ensures { result ≡ bare_control_of flit }
{
    let c = read::content(&flit);
    with_content(flit, c % place::SHORT_FLIT_NEXT)
}

// A bit as a part of a DL content: its place where it is set.
fn mark(place: u64, set: bool) -> u64
    ensures { result ≡ (if set then place else 0) }
{
    if set { place } else { 0 }
}

// A control flit as it is sent, but for its check. An ACK count has five bits, so at most 31 is asked where one is written.
pub fn control_told(flit: [u8; 64], acks: FlitCount, stalled: bool) -> [u8; 64]
    requires { acks.0 ≤ 31 }
    ensures { result ≡ control_told_of flit acks.0 stalled }
{
    let c = read::content(&flit);
    let told = c % place::SHORT_FLIT_NEXT
        + mark(place::DATA_STALLED, stalled)
        + place::ACK_COUNT * (acks.0 as u64);
    with_content(flit, told)
}

// An idle flit.
pub fn idle_flit(acks: FlitCount, stalled: bool, owed: FlitCount) -> [u8; 64]
    requires { (acks.0 ≤ 31) × (owed.0 ≤ 8) }
    ensures { result ≡ idle_flit_of acks.0 stalled owed.0 }
{
    let c = Fields::IDLE as u64
        + place::SECOND_RUN_LENGTH * (owed.0 as u64)
        + mark(place::DATA_STALLED, stalled)
        + place::ACK_COUNT * (acks.0 as u64);
    let mut flit = with_content([0u8; 64], c);
    crc::seal(&mut flit);
    flit
}

// What a replay flit says, its run length and its check apart.
#[derive(Clone, Copy)]
pub struct Replay {
    pub information: u64,
    pub previous: FlitCount,
    pub start: SequenceNumber,
    pub last: LastReceived,
    pub errors: u8,
    pub stalled: bool,
    pub nack: bool,
}

// A replay flit.
pub fn replay_flit(r: Replay) -> [u8; 64]
    requires { r.previous.0 ≤ 8 }
    ensures { result ≡ replay_flit_of r }
{
    let c = Fields::REPLAY as u64
        + place::SECOND_RUN_LENGTH * (r.previous.0 as u64)
        + place::LINK_ERRORS * (r.errors as u64)
        + mark(place::DATA_STALLED, r.stalled)
        + mark(place::NACK, r.nack);
    let told = with_bytes(
        [0u8; 64],
        place::LINK_INFORMATION,
        r.information.to_le_bytes(),
    );
    let last = with_bytes(told, place::ACKNOWLEDGE_NUMBER, r.last.0.to_le_bytes());
    let start = with_bytes(last, place::STARTING_NUMBER, r.start.0.to_le_bytes());
    let mut flit = with_content(start, c);
    crc::seal(&mut flit);
    flit
}
