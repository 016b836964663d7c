// An acknowledgement counts: units all of whose flits are acknowledged leave the store (01, Receive 4).

#![tactic(auto)]

ghost use Rattle.std.specs.Prelude.{◌≡◌, ◌≤◌};
ghost use Rattle.end_state.specs.Ring.{walked};
ghost use Rattle.receive_free.specs.Acknowledge.{Covered, freed_by, sent_anew as sent_anew_of, acknowledged as acknowledged_of};

use end_state::ring::Ring;
use end_state::{End, ring, walk};
use flit_number::FlitCount;

// A unit border among the oldest flits, and the data flits of the unit that begins there.
#[derive(Clone, Copy)]
struct Border {
    flits: usize,
    run: usize,
}

// The last unit border among the oldest flits where so many more are acknowledged, with the data flits of the unit that begins there.
fn find_border(e: End, store: &[u8], flits: FlitCount) -> Border
    requires { Covered e store.now flits.0 }
    ensures flits_value { result.flits ≡ freed_by e store.now flits.0 }
    ensures run_value { result.run ≡ (walked e store.now result.flits).run }
    ensures within { result.flits ≤ e.held.0 }
{
    let already = flit_number::flits_between(e.oldest, e.acknowledged);
    let reach = already.0 + flits.0;
    let ring = Ring { end: &e, store };
    let mut w = walk::begun(e.kept);
    let mut border = Border {
        flits: 0,
        run: w.run,
    };
    for n in 0..reach {
        w = walk::passed(ring.flit(n), w);
        if w.border {
            border = Border {
                flits: n + 1,
                run: w.run,
            };
        }
    }
    border
}

// Where all is to be sent again, the cursor at the oldest unit, and replay pending. `again` is a flag, as in `sent_anew`: both callers have it
// as one.
pub fn sent_anew(e: End, again: bool) -> End
    ensures { result ≡ sent_anew_of again e }
{
    if again {
        End {
            cursor: e.oldest,
            pending: true,
            ..e
        }
    } else {
        e
    }
}

// So many flits more are acknowledged: the first place moves past the oldest units all of whose flits are.
pub fn acknowledged(e: End, store: &[u8], flits: FlitCount) -> End
    requires { Covered e store.now flits.0 }
    ensures { result ≡ acknowledged_of e store.now flits.0 }
{
    let cursor = flit_number::flits_between(e.oldest, e.cursor);
    let border = find_border(e, store, flits);
    let next = End {
        first: ring::place(e.capacity.0, e.first, border.flits),
        held: FlitCount(e.held.0 - border.flits),
        kept: FlitCount(border.run),
        oldest: flit_number::number_after(e.oldest, FlitCount(border.flits)),
        acknowledged: flit_number::number_after(e.acknowledged, flits),
        ..e
    };
    sent_anew(next, cursor.0 < border.flits)
}
