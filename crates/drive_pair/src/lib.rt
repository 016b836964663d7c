// Two ends of a link and the line so far: what one byte of the input does. A command goes to the end that its line names.

#![tactic(auto)]

ghost use Rattle.std.specs.Prelude.{◌≡◌, take};
ghost use Rattle.text.specs.Text.{Room};
ghost use Rattle.drive_script.specs.Script.{InRange, bytes_in};
ghost use Rattle.drive_call.specs.Sides.{Kept};
ghost use Rattle.drive_pair.specs.Pair.{answered, ended, byte, Goes};

use drive_line::SessionEnd;
use drive_name::Which;
use drive_script::{Command, Line};
use std::marker::Model;
use text::Writer;

// The two ends, and the line so far at the start of its buffer: fixed memory. A line of 4,097 bytes is one that is too long, as `longer` says.
#[derive(Clone, Copy)]
pub struct Pair {
    pub a: SessionEnd,
    pub b: SessionEnd,
    pub line: [u8; 4097],
    pub length: usize,
}

impl Model for Pair {
    ghost use Rattle.std.specs.Prelude.{take};
    ghost use Rattle.std.proofs.lemmas.List.{length-take-le};
    ghost use Rattle.drive_call.specs.Whole.{whole_buffer, whole_again};
    ghost use Rattle.drive_pair.specs.Pair.{State, LineWhole, line_bytes, line_inside};

    ghost Value = { State };

    ghost view = { λ d. record { a = d.a; b = d.b; line = take d.length d.line } };

    ghost invariant = { λ d. LineWhole d.length d.line };

    ghost inverse = { λ s. record { a = s.a; b = s.b; line = whole_buffer 4097 s.line; length = line_bytes s } };

    ghost inverse_ok = { λ d h i. record {
      a = d.a;
      b = d.b;
      line = whole_again d.line d.length 4097 h.0 (line_inside h) h.1.clean i;
      length = length-take-le d.length d.line (line_inside h) i;
    } };
}

impl Pair {
    // One byte of the input.
    pub fn step(&mut self, c: u8, writer: &mut Writer)
        requires { Room writer.old 8192 }
        ensures { Goes (byte self.old c) self.new writer.old writer.new }
    {
        if c == b'\n' {
            self.end_line(writer);
            return;
        }
        // What is too long for a command is not remembered.
        if self.length < 4097 {
            self.line[self.length] = c;
            self.length += 1;
        }
    }

    // The line is whole, and the next one begins.
    pub fn end_line(&mut self, writer: &mut Writer)
        requires { Room writer.old 8192 }
        ensures { Goes (ended self.old) self.new writer.old writer.new }
    {
        let mut bytes = [0u8; 2000];
        let read = read_command(&self.line[..self.length], &mut bytes);
        drive_call::clear(&mut self.line, 0, self.length);
        self.length = 0;
        match read.which {
            Which::A => drive_line::run(&mut self.a, read.command, &mut bytes, writer),
            Which::B => drive_line::run(&mut self.b, read.command, &mut bytes, writer),
        }
    }
}

// The command of a whole line. One of more than 4,096 bytes is none.
fn read_command(line: &[u8], bytes: &mut [u8; 2000]) -> Line
    ensures in_range { InRange result.command }
    ensures bytes_after { (a b : Kept) → answered a b result.which result.command (take (bytes_in result.command) bytes.new) ≡ ended (record { a = a; b = b; line = line.now }) }
{
    if 4096 < line.len() {
        return Line {
            which: Which::A,
            command: Command::Bad,
        };
    }
    drive_script::read_line(line, bytes)
}
