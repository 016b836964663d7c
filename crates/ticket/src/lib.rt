// The counts of a session (01, "The bench ticket"): functions that count by value, and the ticket as text.

#![tactic(auto)]

ghost use Rattle.std.specs.Prelude.{◌≡◌, ◌+◌, ◌≤◌, length};
ghost use Rattle.text.specs.Text.{filled, Puts, Room, Appends};
ghost use Rattle.ticket.specs.Ticket.{TicketCall, nothing, stopped, ticket_after, in_order, text as text_of, answer_for, ticket_output};

use end_state::Refusal;
use flit_number::FlitCount;
use receive_answer::Answer;
use text::Writer;

// TL flits accepted, TL flits delivered, answers damaged, units duplicate, times gone down.
#[derive(Clone, Copy, Default)]
pub struct Ticket {
    pub accepted: u32,
    pub delivered: u32,
    pub damaged: u32,
    pub duplicate: u32,
    pub downs: u32,
}

// A ticket of zeros.
pub fn fresh() -> Ticket
    ensures { result ≡ nothing }
{
    Ticket::default()
}

// The ticket after accept of a unit of so many flits.
pub fn after_accept(t: Ticket, answer: Result<(), Refusal>, flits: FlitCount) -> Ticket
    ensures { result ≡ ticket_after t (TicketCall.accepts answer flits.0) }
{
    match answer {
        Ok(()) => Ticket {
            accepted: more(t.accepted, flits.0),
            ..t
        },
        Err(_) => t,
    }
}

// The ticket after receive.
pub fn after_receive(t: Ticket, answer: Answer) -> Ticket
    ensures { result ≡ ticket_after t (TicketCall.receives answer) }
{
    match answer {
        Answer::Delivered(data) => Ticket {
            delivered: more(t.delivered, data.0).saturating_add(1),
            ..t
        },
        Answer::Damaged => Ticket {
            damaged: t.damaged.saturating_add(1),
            ..t
        },
        Answer::Duplicate => Ticket {
            duplicate: t.duplicate.saturating_add(1),
            ..t
        },
        Answer::Down(_) => Ticket {
            downs: t.downs.saturating_add(1),
            ..t
        },
        _ => t,
    }
}

// Counts stop at the largest number.
fn more(count: u32, n: usize) -> u32
    ensures { result ≡ stopped (count + n) }
{
    count.saturating_add(u32::try_from(n).unwrap_or(u32::MAX))
}

// Writes the ticket at the start of a buffer and answers its bytes, or nothing where the buffer is shorter than its text.
pub fn write_ticket(t: Ticket, out: &mut [u8]) -> Option<usize>
    ensures value { result ≡ answer_for t (length out.old) }
    ensures out_after { out.new ≡ ticket_output t out.old }
{
    // fixed memory: a ticket has at most 160 bytes
    let mut whole = [0u8; 160];
    let bytes = write_whole(t, &mut whole);
    if out.len() < bytes {
        return None;
    }
    out[..bytes].copy_from_slice(&whole[..bytes]);
    Some(bytes)
}

// Writes the ticket at the start of a buffer that has room for any, and answers its bytes.
fn write_whole(t: Ticket, out: &mut [u8]) -> usize
    requires { 160 ≤ length out.old }
    ensures { Puts out.old 0 (text_of t) result out.new }
{
    let mut writer = Writer { out, at: 0 };
    put_ticket(&mut writer, t);
    writer.at
}

// Writes the five lines.
pub fn put_ticket(writer: &mut Writer, t: Ticket)
    requires { Room writer.old 160 }
    ensures { Appends writer.old (text_of t) writer.new }
{
    put_counts(
        writer,
        b"accepted=#\ndelivered=#\ndamaged=#\nduplicate=#\ndowns=#\n",
        t,
    );
}

// Writes a form with the five counts.
pub fn put_counts(writer: &mut Writer, form: &[u8], t: Ticket)
    requires { Room writer.old (length form.now + 100) }
    ensures { Appends writer.old (filled form.now (in_order t)) writer.new }
{
    let counts = [
        t.accepted as u64,
        t.delivered as u64,
        t.damaged as u64,
        t.duplicate as u64,
        t.downs as u64,
    ];
    writer.put_form(form, &counts);
}
