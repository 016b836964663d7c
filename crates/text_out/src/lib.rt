// Standard output for the programs, and what they say where reading or writing fails.

#![tactic(auto)]

ghost use Rattle.std.specs.Prelude.{◌≤◌, IfOk, length};

use std::io;
use std::io::{Read, Write};
use text::Writer;

// A read or a write failed, and standard error says so.
#[derive(Drop)]
pub struct Failed;

// Writes a text to standard output.
pub fn write<R: Print + Eprint>(rt: &R, text: &[u8]) -> Result<(), Failed> {
    match rt.write_all(text) {
        Ok(()) => Ok(()),
        Err(error) => Err(fail(rt, "standard output", error)),
    }
}

// Writes to standard output what was written into a buffer.
pub fn write_out<R: Print + Eprint>(rt: &R, writer: Writer) -> Result<(), Failed>
    requires { writer.at ≤ length writer.out.now }
{
    let Writer { out, at } = writer;
    write(rt, &out[..at])
}

// Reads once from standard input, and answers how many bytes.
pub fn read<R: Eprint, S: Read>(rt: &R, stdin: &mut S, input: &mut [u8]) -> Result<usize, Failed>
    ensures { IfOk result (λ bytes. bytes ≤ length input.old) }
{
    match stdin.read(input) {
        Ok(bytes) => Ok(bytes),
        Err(error) => Err(fail(rt, "standard input", error)),
    }
}

// Says on standard error what failed, and the system's reason in words.
fn fail<R: Eprint>(rt: &R, what: &str, error: io::Error) -> Failed {
    let mut text = [0u8; 320];
    let mut rest = &mut text[..];
    let _ = write!(rest, "{error}");
    let said = str::from_utf8(&text).unwrap_or("");
    let reason = match said.split_once(" (os error ") {
        Some((reason, _)) => reason,
        None => said.trim_end_matches('\0'),
    };
    let _ = eprintln!(rt; "{what}: {reason}");
    Failed
}
