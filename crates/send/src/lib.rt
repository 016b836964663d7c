// Send writes what goes on the wire next (01, "Send"). The buffers come in apart, as callers lend them.

#![tactic(auto)]

ghost use Rattle.std.specs.Prelude.{◌≡◌, length};
ghost use Rattle.end_state.specs.Refusals.{previous_run};
ghost use Rattle.send.specs.Send.{send_verdict, admitted_run, send as send_of, send_output};

use end_state::ring::Ring;
use end_state::{Answered, End, Refusal};
use flit_number::FlitCount;

// Writes what goes on the wire next to the start of `output`, whose other bytes stay, and answers the number of flits written.
// `errors` and `information` are the link fields of a replay flit. A refusal changes neither the state nor the output.
pub fn send(
    e: End,
    store: &[u8],
    output: &mut [u8],
    errors: u8,
    information: u64,
) -> Answered<Result<FlitCount, Refusal>>
    ensures value { result ≡ send_of e store.now (length output.old) }
    ensures output_after { output.new ≡ send_output e store.now output.old errors information }
{
    match find_run(e, store, output.len()) {
        Err(refusal) => Answered {
            answer: Err(refusal),
            end: e,
        },
        Ok(run) => {
            let ring = Ring { end: &e, store };
            let flits = send_burst::write_burst(ring, run, output, errors, information);
            let end = send_state::moved(e, run);
            Answered {
                answer: Ok(flits),
                end,
            }
        }
    }
}

// The refusals of send, in the table's order, or the run length of the control flit before the cursor.
fn find_run(e: End, store: &[u8], output: usize) -> Result<FlitCount, Refusal>
    ensures { result ≡ admitted_run (send_verdict e store.now output) (previous_run e store.now) }
{
    let runs = end_judge::judge(e, store)?;
    if output < End::OUTPUT {
        return Err(Refusal::Out);
    }
    if e.mode.is_down() {
        return Err(Refusal::Down);
    }
    Ok(runs.previous)
}
