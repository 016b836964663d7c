// One command: what it does to an end in its buffers, and its line. Each of the ten has a function of its own, of a call and what is printed
// after it: one function for them would take both as closures with contracts, and be longer than they are. The room is that of a whole line,
// which a type could not say once: each line uses it up.

#![tactic(auto)]

ghost use Rattle.std.specs.Prelude.{◌≡◌, ◌++◌, ◌≤◌, length};
ghost use Rattle.text.specs.Text.{decimal, Room, Appends};
ghost use Rattle.drive_name.specs.Names.{most};
ghost use Rattle.drive_script.specs.Script.{InRange};
ghost use Rattle.drive_call.specs.Sides.{repeated};
ghost use Rattle.drive_line.specs.Lines.{state_of, stated, bad_line, ticket_line, commanded_from, start_line, accept_line, send_line, receive_line, poke_line, fill_line, lend_line, count_line};

use drive_call::BufferedEnd;
use drive_name::{EndField, Key};
use drive_script::Command;
use end_state::End;
use text::Writer;

// An end of a session: its store has at most 70,000 bytes, at most so many are lent, and at most 2,000 of the hold.
pub type SessionEnd = BufferedEnd<70000, 2000>;

// Does a command and prints its line. Its bytes are at the start of a buffer, which is used for the output of send and cleared after.
pub fn run(end: &mut SessionEnd, command: Command, bytes: &mut [u8; 2000], writer: &mut Writer)
    requires { InRange command × Room writer.old 8192 }
    ensures kept_after { end.new ≡ (commanded_from end.old command bytes.old).kept }
    ensures appends { Appends writer.old (commanded_from end.old command bytes.old).line writer.new }
    ensures bytes_after { bytes.new ≡ repeated 2000 0 }
{
    answer(end, command, bytes, writer);
    bytes.fill(0);
}

// Apart from `run`, whose last step would else be proved after each of ten arms.
fn answer(end: &mut SessionEnd, command: Command, bytes: &mut [u8; 2000], writer: &mut Writer)
    requires { InRange command × Room writer.old 8192 }
    ensures kept_after { end.new ≡ (commanded_from end.old command bytes.old).kept }
    ensures appends { Appends writer.old (commanded_from end.old command bytes.old).line writer.new }
{
    match command {
        Command::Bad => bad(writer),
        Command::Start(n) => start(end, n, writer),
        Command::Accept(n) => accept(end, &bytes[..n], writer),
        Command::Send(n, errors, information) => {
            send(end, &mut bytes[..n], errors, information, writer)
        }
        Command::Receive(n) => receive(end, &bytes[..n], writer),
        Command::Poke(field, value) => poke(end, field, value, writer),
        Command::Fill(offset, n) => fill(end, offset, &bytes[..n], writer),
        Command::Lend(lent, held) => lend(end, lent, held, writer),
        Command::Ticket => ticket(end, writer),
        Command::Count(key, n) => count(end, key, n, writer),
    }
}

// A line that is no command changes nothing.
fn bad(writer: &mut Writer)
    requires { Room writer.old 8192 }
    ensures { Appends writer.old bad_line writer.new }
{
    writer.put(b"bad\n");
}

// Ticket prints the ticket and no state.
fn ticket(end: &SessionEnd, writer: &mut Writer)
    requires { Room writer.old 8192 }
    ensures { Appends writer.old (ticket_line end.now.side) writer.new }
{
    drive_state::put_ticket(writer, end.side.ticket);
}

fn start(end: &mut SessionEnd, bytes: usize, writer: &mut Writer)
    requires { (bytes ≤ 70000) × Room writer.old 8192 }
    ensures kept_after { end.new ≡ (start_line bytes).kept }
    ensures appends { Appends writer.old (start_line bytes).line writer.new }
{
    let answer = end.start(bytes);
    put_plain(
        end,
        b"start refuse=",
        end_state::verdict_number(answer),
        writer,
    );
}

fn accept(end: &mut SessionEnd, unit: &[u8], writer: &mut Writer)
    requires { Room writer.old 8192 }
    ensures kept_after { end.new ≡ (accept_line end.old unit.now).kept }
    ensures appends { Appends writer.old (accept_line end.old unit.now).line writer.new }
{
    let answer = end.accept(unit);
    put_plain(
        end,
        b"accept refuse=",
        end_state::verdict_number(answer),
        writer,
    );
}

fn send(end: &mut SessionEnd, output: &mut [u8], errors: u8, info: u64, writer: &mut Writer)
    requires { (length output.old ≤ 2000) × Room writer.old 8192 }
    ensures kept_after { end.new ≡ (send_line end.old (length output.old) errors info).kept }
    ensures appends { Appends writer.old (send_line end.old (length output.old) errors info).line writer.new }
{
    let answer = end.send(output, errors, info);
    drive_head::put_send(writer, answer, output);
    put_state(end, writer);
}

fn receive(end: &mut SessionEnd, flit: &[u8], writer: &mut Writer)
    requires { Room writer.old 8192 }
    ensures kept_after { end.new ≡ (receive_line end.old flit.now).kept }
    ensures appends { Appends writer.old (receive_line end.old flit.now).line writer.new }
{
    let answer = end.receive(flit);
    drive_head::put_receive(writer, answer);
    put_state(end, writer);
}

fn poke(end: &mut SessionEnd, field: EndField, value: u64, writer: &mut Writer)
    requires { (value ≤ most field) × Room writer.old 8192 }
    ensures kept_after { end.new ≡ (poke_line end.old field value).kept }
    ensures appends { Appends writer.old (poke_line end.old field value).line writer.new }
{
    end.side = drive_set::poke(end.side, field, value);
    put_plain(end, b"poke refuse=", 0, writer);
}

fn fill(end: &mut SessionEnd, offset: u64, bytes: &[u8], writer: &mut Writer)
    requires { Room writer.old 8192 }
    ensures kept_after { end.new ≡ (fill_line end.old offset bytes.now).kept }
    ensures appends { Appends writer.old (fill_line end.old offset bytes.now).line writer.new }
{
    if end.fill(offset, bytes) {
        put_plain(end, b"fill refuse=", 0, writer);
    } else {
        bad(writer);
    }
}

fn lend(end: &mut SessionEnd, lent: usize, held: usize, writer: &mut Writer)
    requires { (lent ≤ 70000) × (held ≤ 2000) × Room writer.old 8192 }
    ensures kept_after { end.new ≡ (lend_line end.old lent held).kept }
    ensures appends { Appends writer.old (lend_line end.old lent held).line writer.new }
{
    end.side = drive_set::lend(end.side, lent, held);
    put_plain(end, b"lend refuse=", 0, writer);
}

fn count(end: &mut SessionEnd, key: Key, n: u32, writer: &mut Writer)
    requires { Room writer.old 8192 }
    ensures kept_after { end.new ≡ (count_line end.old key n).kept }
    ensures appends { Appends writer.old (count_line end.old key n).line writer.new }
{
    end.side = drive_set::count(end.side, key, n);
    put_plain(end, b"count refuse=", 0, writer);
}

// The command, the number of its refusal, which is printed as it is, and the state.
fn put_plain(end: &SessionEnd, word: &[u8], refuse: u64, writer: &mut Writer)
    requires { (length word.now ≤ 20) × Room writer.old 8192 }
    ensures { Appends writer.old (stated (word.now ++ decimal refuse) end.now).line writer.new }
{
    writer.put_field(word, refuse);
    put_state(end, writer);
}

// The state, with the kept buffers, after what comes before it.
fn put_state(end: &SessionEnd, writer: &mut Writer)
    requires { Room writer.old 1024 }
    ensures { Appends writer.old (state_of end.now) writer.new }
{
    let store = &end.store[..end.side.kept];
    let hold = &end.hold[..End::HOLD];
    drive_state::put_state(writer, end.side.end, store, hold);
}
