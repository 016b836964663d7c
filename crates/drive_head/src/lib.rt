// What a line says before the state: the number of a refusal, the flits sent, the answer to a flit received.

#![tactic(auto)]

ghost use Rattle.std.specs.Prelude.{◌≡◌, ◌*◌, ◌≤◌, length};
ghost use Rattle.text.specs.Text.{Room, Appends};
ghost use Rattle.send.specs.Send.{flits_written};
ghost use Rattle.drive_head.specs.Heads.{untouched as untouched_of, send_head, receive_head};

use end_state::Refusal;
use flit_number::FlitCount;
use receive_answer::Answer;
use text::Writer;

// Flits written, and their bytes; then whether a byte past them is no longer 165.
pub fn put_send(writer: &mut Writer, answer: Result<FlitCount, Refusal>, output: &[u8])
    requires { (length output.now ≤ 2000) × (flits_written answer * 64 ≤ length output.now) × Room writer.old 4200 }
    ensures { Appends writer.old (send_head answer output.now) writer.new }
{
    let flits = flits_of(answer);
    let numbers = [end_state::verdict_number(answer), flits as u64];
    let (sent, rest) = output.split_at(flits * 64);
    writer.put_form(b"send refuse=# flits=# out=", &numbers);
    text_hex::put_hex(writer, sent);
    if !untouched(rest) {
        writer.put(b" spill");
    }
}

fn flits_of(answer: Result<FlitCount, Refusal>) -> usize
    ensures { result ≡ flits_written answer }
{
    answer.map_or(0, |flits| flits.0)
}

// The answer's word, and the data flits that it delivered.
pub fn put_receive(writer: &mut Writer, answer: Answer)
    requires { Room writer.old 200 }
    ensures { Appends writer.old (receive_head answer) writer.new }
{
    let told = receive_answer::told_by(answer);
    writer.put_form(b"receive refuse=# answer=", &[told.refusal]);
    writer.put(text_word::answer_word(answer));
    writer.put_field(b" data=", told.delivered as u64);
}

// Whether each byte is 165.
fn untouched(bytes: &[u8]) -> bool
    ensures { result ≡ untouched_of bytes.now }
{
    bytes.iter().all(|&byte| byte == 165)
}
