// The burst of one send: two replay flits, a unit, or an idle flit. `run` is everywhere the run length of the control flit before
// the cursor.

#![tactic(auto)]

ghost use Rattle.std.specs.Prelude.{◌≡◌, true, ◌++◌, ◌≤◌, length, drop};
ghost use Rattle.flit_write.specs.Flits.{idle_flit};
ghost use Rattle.end_state.specs.Refusals.{sound, previous_run};
ghost use Rattle.send_burst.specs.Burst.{burst as burst_of, burst_flits, output_with};

use end_state::ring::Ring;
use flit_number::FlitCount;
use flit_read::copy;

// Writes the burst to the start of the output, and says how many flits it is. No struct for `errors` and `information`: it would be made in
// send alone, and be taken apart one call on, in `write_replays`.
pub fn write_burst(
    ring: Ring,
    run: FlitCount,
    output: &mut [u8],
    errors: u8,
    information: u64,
) -> FlitCount
    requires state { sound ring.end.now ring.store.now ≡ true }
    requires run_value { run.0 ≡ previous_run ring.end.now ring.store.now }
    requires room { 640 ≤ length output.old }
    ensures result_value { result.0 ≡ burst_flits ring.entry.end.now run.0 }
    ensures output_after { output.new ≡ output_with (burst_of ring.entry.end.now ring.entry.store.now run.0 errors information) output.old }
{
    let e = *ring.end;
    if e.pending {
        send_replay::write_replays(e, run, output, errors, information);
        return FlitCount(2);
    }
    let acks = send_state::carried(e.untold);
    let cursor = flit_number::flits_between(e.oldest, e.cursor);
    if e.held.0 <= cursor.0 {
        write_idle(acks, 0 < run.0, run, output);
        return FlitCount(1);
    }
    if 0 < run.0 {
        write_idle(acks, false, run, output);
        let left = send_state::carried(send_state::fallen(e.untold));
        send_unit::write_unit(ring, run, &mut output[64..], left);
        FlitCount(run.0 + 2)
    } else {
        send_unit::write_unit(ring, run, output, acks);
        FlitCount(1)
    }
}

// An idle flit at the start of the output.
fn write_idle(acks: FlitCount, stalled: bool, run: FlitCount, output: &mut [u8])
    requires { (acks.0 ≤ 31) × (run.0 ≤ 8) × (64 ≤ length output.old) }
    ensures { output.new ≡ idle_flit acks.0 stalled run.0 ++ drop 64 output.old }
{
    let flit = flit_write::idle_flit(acks, stalled, run);
    copy::put(&mut output[0..64], flit);
}
