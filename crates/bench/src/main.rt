// Reads flits from standard input into a fresh receiver and prints a line for each (01, "The bench ticket"). With --ticket the
// ticket follows. Here bytes are only moved: what is printed is said by the library.

#![tactic(auto)]

ghost use Rattle.std.specs.Prelude.{◌≡◌, ◌+◌, ◌^◌, ◌≤◌, ◌<◌, IfOk, length};

use bench_capture::Bench;
use std::env::{Env, FillError};
use std::io::Read;
use text::Writer;
use text_out::Failed;

// What is kept between reads, with the buffers. The bytes of an unfinished flit are at the start of the input.
#[derive(Drop)]
struct Capture {
    kept: Bench,
    rest: usize,
    store: [u8; 576],
    hold: [u8; 576],
    input: [u8; 65536],
    out: [u8; 131072],
}

// A proved loop has to end, and nothing says that the input does. So there are at most so many reads, a number that no run uses up.
const READS: u64 = 1125899906842624;

fn main(rt: HostRuntime) {
    match wanted(&rt) {
        Some(ticketed) => {
            let _ = print_all(&rt, &mut rt.stdin(), ticketed);
        }
        None => {
            let _ = eprint!(rt; "usage: bench [--ticket] < flits\n");
        }
    }
}

// Whether the ticket is wanted too, as the arguments say, or nothing where they are others.
fn wanted<R: Env>(rt: &R) -> Option<bool> {
    let mut word = [0u8; 16];
    match rt.arg(1, &mut word) {
        Err(FillError::NotPresent) => Some(false),
        Err(FillError::TooLong) => None,
        Ok(length) => {
            if has_argument(rt, 2) | (&word[..length] != b"--ticket".as_slice()) {
                return None;
            }
            Some(true)
        }
    }
}

// drive has such a function too. A crate for these two lines, with its contract, would be longer than both.
fn has_argument<R: Env>(rt: &R, i: usize) -> bool {
    let mut word = [0u8; 16];
    !matches!(rt.arg(i, &mut word), Err(FillError::NotPresent))
}

// The last lines are printed unless a read or a write failed.
fn print_all<R: Print + Eprint, S: Read>(
    rt: &R,
    stdin: &mut S,
    ticketed: bool,
) -> Result<(), Failed> {
    let mut capture = Capture::begin();
    for _ in 0..READS {
        if !capture.print_some(rt, stdin)? {
            break;
        }
    }
    capture.print_last(rt, ticketed)
}

impl Capture {
    fn begin() -> Capture
        ensures { (result.rest ≡ 0) × (result.kept.flits ≡ 0) }
    {
        let store = [0u8; 576];
        Capture {
            kept: bench_capture::begin(&store),
            rest: 0,
            store,
            hold: [0u8; 576],
            input: [0u8; 65536],
            out: [0u8; 131072],
        }
    }

    // Reads once, prints the lines of the whole flits that are there, and answers whether there was anything to read.
    fn print_some<R: Print + Eprint, S: Read>(
        &mut self,
        rt: &R,
        stdin: &mut S,
    ) -> Result<bool, Failed>
        requires { (self.old.rest < 64) × (self.old.kept.flits + 1024 < 2 ^ 64) }
        ensures { IfOk result (λ more. (self.new.rest < 64) × (self.new.kept.flits ≤ self.old.kept.flits + 1024)) }
    {
        let more = read_after(rt, stdin, &mut self.input, self.rest)?;
        let bytes = self.rest + more;
        let mut writer = Writer {
            out: &mut self.out,
            at: 0,
        };
        self.kept = bench_capture::print_flits(
            self.kept,
            &self.store,
            &mut self.hold,
            &self.input[..bytes],
            &mut writer,
        );
        text_out::write_out(rt, writer)?;
        self.rest = bytes % 64;
        bench_capture::keep_rest(&mut self.input, bytes - self.rest, self.rest);
        Ok(0 < more)
    }

    // Prints the lines after the last flit.
    fn print_last<R: Print + Eprint>(&mut self, rt: &R, ticketed: bool) -> Result<(), Failed> {
        let bytes = bench_line::write_last_lines(
            &mut self.out,
            self.rest,
            self.kept.ticket,
            ticketed,
        );
        text_out::write(rt, &self.out[..bytes])
    }
}

// Reads once, to the places after the bytes left over.
fn read_after<R: Eprint, S: Read>(
    rt: &R,
    stdin: &mut S,
    input: &mut [u8],
    rest: usize,
) -> Result<usize, Failed>
    requires { rest ≤ length input.old }
    ensures { IfOk result (λ more. rest + more ≤ length input.new) }
{
    text_out::read(rt, stdin, &mut input[rest..])
}
