// Script lines: text that drives two ends by hand. One line, without its line feed, is read into a command; a line that is no command
// is bad.

#![tactic(auto)]

mod commands;

ghost use Rattle.std.specs.Prelude.{◌≡◌, ◌≤◌, length};
ghost use Rattle.drive_token.specs.Tokens.{over};
ghost use Rattle.drive_script.specs.Script.{line_named, line_of, bytes_of};

use drive_name::{EndField, Key, Which};

// Bad is a command as the others are: it has a line of its own (bad_line of drive_line).
// Accept, Receive and Fill hold the number of bytes of their HEX, which stand in the buffer lent for them.
#[derive(Clone, Copy)]
pub enum Command {
    Bad,
    Start(usize),
    Accept(usize),
    Send(usize, u8, u64),
    Receive(usize),
    Poke(EndField, u64),
    Fill(u64, usize),
    Lend(usize, usize),
    Ticket,
    Count(Key, u32),
}

#[derive(Clone, Copy)]
pub struct Line {
    pub which: Which,
    pub command: Command,
}

// Reads a line. The bytes of its HEX go to the first places of the buffer, which may be longer than it must, so its length is in no type.
#[tactic(auto, unfolding(crate::specs::Script::line_of))]
pub fn read_line(line: &[u8], bytes: &mut [u8]) -> Line
    requires { 2000 ≤ length bytes.old }
    ensures value { result ≡ line_of line.now }
    ensures bytes_after { bytes.new ≡ over (bytes_of line.now) bytes.old }
{
    named_line(line, bytes).unwrap_or(Line {
        which: Which::A,
        command: Command::Bad,
    })
}

// A line that names an end, by its second token.
fn named_line(line: &[u8], bytes: &mut [u8]) -> Option<Line>
    requires { 2000 ≤ length bytes.old }
    ensures value { result ≡ line_named line.now }
    ensures bytes_after { bytes.new ≡ over (bytes_of line.now) bytes.old }
{
    let (op, rest) = drive_token::cut(line);
    let (end, arguments) = drive_token::cut(rest?);
    let which = drive_name::end_named(end)?;
    let command = commands::command(op, arguments, bytes).unwrap_or(Command::Bad);
    Some(Line { which, command })
}
