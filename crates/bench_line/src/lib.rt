// The lines that bench prints (01, "The bench ticket").

#![tactic(auto)]

ghost use Rattle.std.specs.Prelude.{Some, None, cond, ◌≤◌, length};
ghost use Rattle.text.specs.Text.{Room, Appends, Puts};
ghost use Rattle.bench_line.specs.Line.{answer_part, state_part, flit_line, last_lines};

use end_state::End;
use receive_answer::Answer;
use text::Writer;
use ticket::Ticket;

// The line of one flit.
pub fn put_line(writer: &mut Writer, flit: u64, answer: Answer, end: End)
    requires { Room writer.old 128 }
    ensures { Appends writer.old (flit_line flit answer end) writer.new }
{
    put_answer(writer, flit, answer);
    put_state(writer, end);
}

// Each key is put by itself: a form costs more, since each of its bytes is asked whether it is a hash, and this is done for each flit.
fn put_answer(writer: &mut Writer, flit: u64, answer: Answer)
    requires { Room writer.old 80 }
    ensures { Appends writer.old (answer_part flit answer) writer.new }
{
    writer.put_field(b"flit=", flit);
    writer.put(b" answer=");
    writer.put(text_word::answer_word(answer));
    let told = receive_answer::told_by(answer);
    writer.put_field(b" data=", told.delivered as u64);
}

fn put_state(writer: &mut Writer, end: End)
    requires { Room writer.old 48 }
    ensures { Appends writer.old (state_part end) writer.new }
{
    writer.put_field(b" wanted=", end.wanted.0 as u64);
    writer.put(b" mode=");
    writer.put(text_word::mode_word(end.mode));
    writer.put(b"\n");
}

// The lines after the last flit.
pub fn put_last_lines(writer: &mut Writer, rest: usize, ticket: Option<Ticket>)
    requires { Room writer.old 256 }
    ensures { Appends writer.old (last_lines rest ticket) writer.new }
{
    writer.put_form(b"rest=#\n", &[rest as u64]);
    if let Some(counts) = ticket {
        ticket::put_ticket(writer, counts);
    }
}

// The lines after the last flit at the start of a buffer, with the ticket where it is asked for. Answers their bytes.
pub fn write_last_lines(out: &mut [u8], rest: usize, counts: Ticket, ticketed: bool) -> usize
    requires { 256 ≤ length out.old }
    ensures { Puts out.old 0 (last_lines rest (cond ticketed (Some counts) None)) result out.new }
{
    let mut writer = Writer { out, at: 0 };
    put_last_lines(&mut writer, rest, ticketed.then_some(counts));
    writer.at
}
