// A unit as it is sent (01, Send 2).

#![tactic(auto)]

ghost use Rattle.std.specs.Prelude.{◌≡◌, ◌++◌, ◌+◌, ◌*◌, ◌<◌, ◌≤◌, length, drop};
ghost use Rattle.end_state.specs.Refusals.{cursor_at};
ghost use Rattle.send_unit.specs.Units.{stored_flits, unit_sent};

use end_state::End;
use end_state::ring::Ring;
use flit_number::FlitCount;
use flit_read::{copy, read};

// 01, Send 2: the unit at the cursor, its control flit with an ACK count, sealed.
pub fn write_unit(ring: Ring, run: FlitCount, output: &mut [u8], acks: FlitCount)
    requires acks_bound { acks.0 ≤ 31 }
    requires run_bound { (cursor_at ring.end.now + run.0 < ring.end.now.capacity.0) × (run.0 ≤ 8) × (576 ≤ length output.old) }
    ensures { output.new ≡ unit_sent ring.entry.end.now ring.entry.store.now run.0 acks.0 ++ drop (run.0 * 64 + 64) output.old }
{
    let cursor = flit_number::flits_between(ring.end.oldest, ring.end.cursor);
    copy_flits(ring, cursor.0, run.0, output);
    let control = copy::taken(ring.flit(cursor.0 + run.0));
    let next = read::run_length(read::content(&control));
    let told = flit_write::control_told(control, acks, 0 < next.0);
    let to = run.0 * End::FLIT;
    let bytes = to + End::FLIT;
    copy::put(&mut output[to..bytes], told);
    crc::seal(&mut output[..bytes]);
}

// Copies stored flits to the start of the output, the first from `from` after the oldest.
fn copy_flits(ring: Ring, from: usize, flits: usize, output: &mut [u8])
    requires { (from + flits ≤ ring.end.now.capacity.0) × (flits * 64 ≤ length output.old) }
    ensures { output.new ≡ stored_flits ring.entry.end.now.capacity.0 ring.entry.end.now.first ring.entry.store.now from flits ++ drop (flits * 64) output.old }
{
    for n in 0..flits {
        let at = n * End::FLIT;
        let flit: [u8; 64] = copy::taken(ring.flit(from + n));
        copy::put(&mut output[at..at + End::FLIT], flit);
    }
}
