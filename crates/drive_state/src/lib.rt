// The state of an end and the ticket on one line.

#![tactic(auto)]

ghost use Rattle.std.specs.Prelude.{◌++◌};
ghost use Rattle.text.specs.Text.{ascii, Room, Appends};
ghost use Rattle.drive_state.specs.Show.{ring_part, sending_part, receiving_part, after_mode, state_text, ticket_text};

use end_state::End;
use text::Writer;
use ticket::Ticket;

// Writes the state of an end, a space before each key, and a line feed.
pub fn put_state(writer: &mut Writer, e: End, store: &[u8], hold: &[u8])
    requires { Room writer.old 1024 }
    ensures { Appends writer.old (state_text e store.now hold.now) writer.new }
{
    put_numbers(writer, e);
    writer.put(text_word::mode_word(e.mode));
    put_rest(writer, e, text_hex::adler(store), text_hex::adler(hold));
}

// What comes before the mode's word.
fn put_numbers(writer: &mut Writer, e: End)
    requires { Room writer.old 512 }
    ensures { Appends writer.old (ring_part e ++ sending_part e ++ receiving_part e ++ ascii " mode=") writer.new }
{
    let numbers = [
        e.capacity.0 as u64,
        e.first as u64,
        e.held.0 as u64,
        e.kept.0 as u64,
        e.oldest.0 as u64,
        e.cursor.0 as u64,
        e.sent.0 as u64,
        e.acknowledged.0 as u64,
        e.wanted.0 as u64,
        e.position.0 as u64,
        e.owed.0 as u64,
        e.stalled as u64,
        e.gathered.0 as u64,
        e.untold.0 as u64,
    ];
    writer.put_form(
        b" capacity=# first=# held=# kept=# oldest=# cursor=# sent=# acked=# wanted=# position=# owed=# stalled=# data=# untold=# mode=",
        &numbers,
    );
}

// What comes after it: the information newest first, and the checksums of both buffers. The eight are written out: arrays are not joined.
fn put_rest(writer: &mut Writer, e: End, store: u64, hold: u64)
    requires { Room writer.old 384 }
    ensures { Appends writer.old (after_mode e store hold) writer.new }
{
    let numbers = [
        e.cause as u64,
        e.discards as u64,
        e.pending as u64,
        e.information[0],
        e.information[1],
        e.information[2],
        e.information[3],
        e.information[4],
        e.information[5],
        e.information[6],
        e.information[7],
        store,
        hold,
    ];
    writer.put_form(
        b" cause=# discards=# pending=# info=#,#,#,#,#,#,#,# store=# hold=#\n",
        &numbers,
    );
}

// Writes the line of a ticket.
pub fn put_ticket(writer: &mut Writer, counts: Ticket)
    requires { Room writer.old 256 }
    ensures { Appends writer.old (ticket_text counts) writer.new }
{
    ticket::put_counts(
        writer,
        b"ticket refuse=0 accepted=# delivered=# damaged=# duplicate=# downs=#\n",
        counts,
    );
}
