// What one send moves: untold, pending, the cursor and sent (01, "Send"). `run` is everywhere the run length of the control flit before the
// cursor: found once in a send, and handed on. That it is at most 8 is asked where it is added to or written, one comparison; a type with this
// fact would be taken apart at each of these.

#![tactic(auto)]

ghost use Rattle.std.specs.Prelude.{◌≡◌, cond, ◌≤◌, ltb};
ghost use Rattle.send_state.specs.Moves.{carried as carried_of, fallen as fallen_of, past_unit as past_unit_of, moved as moved_of};

use end_state::End;
use flit_number::FlitCount;

// The end after the burst. The choice is that of `send_burst::write_burst`, which writes; one function for both would have two results.
pub fn moved(e: End, run: FlitCount) -> End
    requires { run.0 ≤ 8 }
    ensures { result ≡ moved_of e run.0 }
{
    if e.pending {
        return End {
            untold: FlitCount(0),
            pending: false,
            ..e
        };
    }
    let cursor = flit_number::flits_between(e.oldest, e.cursor);
    if e.held.0 <= cursor.0 {
        return End {
            untold: fallen(e.untold),
            ..e
        };
    }
    End {
        untold: fallen_past(e.untold, run),
        ..past_unit(e, run)
    }
}

// The cursor moves past the unit, and sent with it where the cursor passes it.
fn past_unit(e: End, run: FlitCount) -> End
    requires { run.0 ≤ 8 }
    ensures { result ≡ past_unit_of e run.0 }
{
    let flits = run.0 + 1;
    let past = flit_number::number_after(e.cursor, FlitCount(flits));
    let cursor = flit_number::flits_between(e.oldest, e.cursor);
    let sent = flit_number::flits_between(e.oldest, e.sent);
    let next = End { cursor: past, ..e };
    if sent.0 < cursor.0 + flits {
        End { sent: past, ..next }
    } else {
        next
    }
}

// The most that one flit tells.
const MOST_TOLD: usize = 31;

// The smaller of 31 and untold.
pub fn carried(untold: FlitCount) -> FlitCount
    ensures result_value { result.0 ≡ carried_of untold.0 }
    ensures result_bound { result.0 ≤ 31 }
{
    FlitCount(untold.0.min(MOST_TOLD))
}

// What untold falls to.
pub fn fallen(untold: FlitCount) -> FlitCount
    ensures { result.0 ≡ fallen_of untold.0 }
{
    FlitCount(untold.0.saturating_sub(MOST_TOLD))
}

// What untold falls to with a unit: twice where an idle flit goes before it.
fn fallen_past(untold: FlitCount, run: FlitCount) -> FlitCount
    ensures { result.0 ≡ cond (ltb 0 run.0) (fallen_of (fallen_of untold.0)) (fallen_of untold.0) }
{
    let once = fallen(untold);
    if 0 < run.0 { fallen(once) } else { once }
}
