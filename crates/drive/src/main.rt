// Drives two ends of a link from text: a command a line on standard input, and a line for each on standard output. Here bytes are
// only moved: what is printed is said by the library.

#![tactic(auto)]

ghost use Rattle.std.specs.Prelude.{◌≡◌, ◌≤◌, length, drop};

use drive_pair::Pair;
use std::env::{Env, FillError};
use std::io::Read;
use text::Writer;
use text_out::Failed;

// A proved loop has to end, and nothing says that the input does. So there are at most so many reads, a number that no run uses up.
const READS: u64 = 1125899906842624;

fn main(rt: HostRuntime) {
    if has_argument(&rt) {
        let _ = eprint!(rt; "usage: drive < script\n");
        return;
    }
    let _ = drive(&rt, &mut rt.stdin());
}

fn has_argument<R: Env>(rt: &R) -> bool {
    let mut word = [0u8; 1];
    !matches!(rt.arg(1, &mut word), Err(FillError::NotPresent))
}

// The last line is printed unless a read or a write failed. The handle is shared and the input is read, so they go in apart, in bench too.
fn drive<R: Print + Eprint, S: Read>(rt: &R, stdin: &mut S) -> Result<(), Failed> {
    let mut pair = drive_session::begin();
    let mut input = [0u8; 65536];
    let mut out = [0u8; 131072];
    for _ in 0..READS {
        let bytes = text_out::read(rt, stdin, &mut input)?;
        if bytes == 0 {
            break;
        }
        print_part(rt, &mut pair, &input[..bytes], &mut out)?;
    }
    print_last(rt, &mut pair, &mut out)
}

// In each turn as many lines are printed as have room.
fn print_part<R: Print + Eprint>(
    rt: &R,
    pair: &mut Pair,
    part: &[u8],
    out: &mut [u8],
) -> Result<(), Failed>
    requires { 8192 ≤ length out.old }
{
    let mut rest = part;
    while !rest.is_empty() {
        let mut writer = Writer { out, at: 0 };
        let used = drive_session::feed(pair, rest, &mut writer);
        text_out::write_out(rt, writer)?;
        rest = after(rest, used);
    }
    Ok(())
}

// The input goes on where the session stopped.
fn after(part: &[u8], used: usize) -> &[u8]
    requires { used ≤ length part.now }
    ensures { result.now ≡ drop used part.now }
{
    &part[used..]
}

fn print_last<R: Print + Eprint>(rt: &R, pair: &mut Pair, out: &mut [u8]) -> Result<(), Failed>
    requires { 8192 ≤ length out.old }
{
    let mut writer = Writer { out, at: 0 };
    drive_session::finish(pair, &mut writer);
    text_out::write_out(rt, writer)
}
