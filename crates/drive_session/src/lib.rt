// Driving two ends of a link from text: from input bytes to output bytes. The program moves the bytes.

#![tactic(auto)]

ghost use Rattle.std.specs.Prelude.{◌≡◌, ◌-◌, length};
ghost use Rattle.text.specs.Text.{Room};
ghost use Rattle.drive_call.specs.Sides.{repeated};
ghost use Rattle.drive_pair.specs.Pair.{Goes};
ghost use Rattle.drive_session.specs.Drive.{unstarted, drive_begun, session, taken, finished};

use drive_call::BufferedEnd;
use drive_line::SessionEnd;
use drive_pair::Pair;
use end_state::End;
use text::Writer;

// The room that a line needs.
const ROOM: usize = 8192;

// Two ends before their first start, and no line so far.
pub fn begin() -> Pair
    ensures { result ≡ drive_begun }
{
    let line = zeros();
    Pair {
        a: unstarted_end(),
        b: unstarted_end(),
        line,
        length: 0,
    }
}

// Before its first start an end is as after a start with no bytes.
fn unstarted_end() -> SessionEnd
    ensures { result ≡ unstarted }
{
    let started = End::start(&[]);
    let side = drive_side::fresh(0, started.end);
    let store = zeros();
    let hold = zeros();
    BufferedEnd { side, store, hold }
}

fn zeros<const N: usize>() -> [u8; N]
    ensures { result ≡ repeated N 0 }
{
    [0; N]
}

// Takes bytes of the input until they are used up or no line more has room in the output, and answers how many.
pub fn feed(pair: &mut Pair, input: &[u8], writer: &mut Writer) -> usize
    requires { Room writer.old 8192 }
    ensures goes { Goes (session pair.old input.now result) pair.new writer.old writer.new }
    ensures used_value { result ≡ taken pair.old input.now (length writer.old.out.now - writer.old.at) (length input.now) }
{
    let most = writer.out.len() - ROOM;
    for (used, c) in input.iter().enumerate() {
        if most < writer.at {
            return used;
        }
        pair.step(*c, writer);
    }
    input.len()
}

// The input has ended: prints the line of a last command without a line feed.
pub fn finish(pair: &mut Pair, writer: &mut Writer)
    requires { Room writer.old 8192 }
    ensures { Goes (finished pair.old) pair.new writer.old writer.new }
{
    if pair.length == 0 {
        return;
    }
    pair.end_line(writer);
}
