// A capture read into a fresh receiver (01, "The bench ticket"): from what is kept and input bytes to what is kept and output bytes. The
// program moves the bytes.

#![tactic(auto)]

ghost use Rattle.std.specs.Prelude.{◌≡◌, [], ◌++◌, ◌+◌, ◌*◌, ◌/◌, ◌^◌, ◌≤◌, ◌<◌, length, take, drop};
ghost use Rattle.text.specs.Text.{Room, Appends};
ghost use Rattle.bench_capture.specs.Bench.{bench_begun, next, whole_flits};

use end_state::{Answered, End};
use text::Writer;
use ticket::Ticket;

// What is kept while flits arrive: how many came, the receiver, the ticket.
#[derive(Clone, Copy)]
pub struct Bench {
    pub end: End,
    pub flits: u64,
    pub ticket: Ticket,
}

// A fresh receiver over a store, and a ticket of zeros.
pub fn begin(store: &[u8]) -> Bench
    ensures { result ≡ bench_begun (length store.now) }
{
    Bench {
        end: End::start(store).end,
        flits: 0,
        ticket: ticket::fresh(),
    }
}

// Prints the lines of all whole flits of the input. Bytes left over are not looked at.
pub fn print_flits(
    b: Bench,
    store: &[u8],
    hold: &mut [u8],
    input: &[u8],
    writer: &mut Writer,
) -> Bench
    requires { (b.flits + length input.now / 64 < 2 ^ 64) × Room writer.old (length input.now / 64 * 128) }
    ensures kept_value { result ≡ (whole_flits store.now b hold.old input.now).kept }
    ensures hold_after { hold.new ≡ (whole_flits store.now b hold.old input.now).hold }
    ensures appends { Appends writer.old (whole_flits store.now b hold.old input.now).lines writer.new }
{
    let mut kept = b;
    for flit in input.chunks_exact(64) {
        kept = print_flit(kept, store, hold, flit, writer);
    }
    kept
}

// Moves the bytes left over to the start of the input, where the next ones follow them.
pub fn keep_rest(input: &mut [u8], from: usize, rest: usize)
    requires { from + rest ≤ length input.old }
    ensures { input.new ≡ take rest (drop from input.old) ++ drop rest input.old }
{
    input.copy_within(from..from + rest, 0);
}

// Receives one flit and prints its line.
fn print_flit(b: Bench, store: &[u8], hold: &mut [u8], flit: &[u8], writer: &mut Writer) -> Bench
    requires { (b.flits + 1 < 2 ^ 64) × Room writer.old 128 }
    ensures kept_value { result ≡ (next store.now (record { kept = b; hold = hold.old; lines = [] }) flit.now).kept }
    ensures hold_after { hold.new ≡ (next store.now (record { kept = b; hold = hold.old; lines = [] }) flit.now).hold }
    ensures appends { Appends writer.old (next store.now (record { kept = b; hold = hold.old; lines = [] }) flit.now).lines writer.new }
{
    let Answered { answer, end } = receive::receive(b.end, store, hold, flit);
    bench_line::put_line(writer, b.flits, answer, end);
    Bench {
        end,
        flits: b.flits + 1,
        ticket: ticket::after_receive(b.ticket, answer),
    }
}
