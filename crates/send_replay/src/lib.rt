// The two replay flits of one send (01, Send 1). `run` is the run length of the control flit before the cursor.

#![tactic(auto)]

ghost use Rattle.std.specs.Prelude.{◌≡◌, ◌++◌, ◌≤◌, length, drop};
ghost use Rattle.send_replay.specs.Replays.{replay_sent};

use end_state::End;
use flit_number::FlitCount;
use flit_read::copy;
use flit_write::Replay;

// Two replay flits, alike, at the start of the output, which is bytes that a caller lends (document 01).
pub fn write_replays(e: End, run: FlitCount, output: &mut [u8], errors: u8, information: u64)
    requires { (run.0 ≤ 8) × (640 ≤ length output.old) }
    ensures { output.new ≡ (replay_sent e run.0 errors information ++ replay_sent e run.0 errors information) ++ drop 128 output.old }
{
    let last = flit_number::last_received(e.wanted);
    let flit = flit_write::replay_flit(Replay {
        information,
        previous: run,
        start: e.cursor,
        last,
        errors,
        stalled: 0 < run.0,
        nack: e.mode.is_wait(),
    });
    copy::put(&mut output[0..64], flit);
    copy::put(&mut output[64..128], flit);
}
