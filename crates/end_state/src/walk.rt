// The walk over the held flits that cuts them into units.
ghost use Rattle.std.specs.Prelude.{◌&&◌, ◌≡◌, ◌-◌, ◌≤◌, eqb, length};
ghost use Rattle.end_state.specs.Ring.{walk_begun, passed as passed_of, walked};

use crate::ring::Ring;
use flit_number::FlitCount;
use flit_read::read;

// After some of the held flits: the data flits before the next control flit, the data flits of the unit last begun, whether a unit
// ends here, and whether every control flit so far is one that accept takes. No Option: the walk goes on past a control flit that is not.
#[derive(Clone, Copy)]
pub struct Walk {
    pub left: usize,
    pub run: usize,
    pub border: bool,
    pub sound: bool,
}

// Before the oldest unit.
pub fn begun(kept: FlitCount) -> Walk
    ensures { result ≡ walk_begun kept.0 }
{
    Walk {
        left: kept.0,
        run: kept.0,
        border: true,
        sound: true,
    }
}

// Past one flit more.
pub fn passed(flit: &[u8], w: Walk) -> Walk
    requires { length flit.now ≡ 64 }
    ensures { result ≡ passed_of flit.now w }
{
    if 0 < w.left {
        return Walk {
            left: w.left - 1,
            border: false,
            ..w
        };
    }
    let run = read::run_length(read::content(flit)).0;
    Walk {
        left: run,
        run,
        border: true,
        sound: w.sound & read::acceptable(flit),
    }
}

// The walk at the cursor, and over all held flits.
#[derive(Clone, Copy)]
pub struct Cut {
    pub cursor: Walk,
    pub whole: Walk,
}

// Cuts the held flits into units; `cursor` of them lie before the cursor.
pub fn cut_units(ring: Ring, cursor: FlitCount) -> Cut
    requires { (ring.end.now.held.0 ≤ ring.end.now.capacity.0) × (cursor.0 ≤ ring.end.now.held.0) }
    ensures cursor_value { result.cursor ≡ walked ring.entry.end.now ring.entry.store.now cursor.0 }
    ensures whole_value { result.whole ≡ walked ring.entry.end.now ring.entry.store.now ring.entry.end.now.held.0 }
{
    let met = walk_on(ring, begun(ring.end.kept), 0, cursor.0);
    Cut {
        cursor: met,
        whole: walk_on(ring, met, cursor.0, ring.end.held.0),
    }
}

// The walk, continued from flit `start` to flit `end`. It goes from one control flit to the next: no data flit is read. No iterator has
// such steps.
fn walk_on(ring: Ring, begun: Walk, start: usize, end: usize) -> Walk
    requires { (start ≤ end) × (end ≤ ring.end.now.capacity.0) × (begun ≡ walked ring.end.now ring.store.now start) }
    ensures { result ≡ walked ring.entry.end.now ring.entry.store.now end }
{
    let mut w = begun;
    let mut n = start;
    while n < end {
        let data = w.left;
        // Where no data flits are left, the next place is known before the flit is read: the sum alone takes twice the time there.
        if 0 < data {
            if end - n <= data {
                return past_data(w, end - n);
            }
            n += data;
        }
        w = passed(ring.flit(n), past_data(w, data));
        n += 1;
    }
    w
}

// Past some of the data flits before the next control flit.
fn past_data(w: Walk, flits: usize) -> Walk
    requires { flits ≤ w.left }
    ensures { result ≡ record { left = w.left - flits; run = w.run; border = w.border && eqb flits 0; sound = w.sound } }
{
    Walk {
        left: w.left - flits,
        border: w.border & (flits == 0),
        ..w
    }
}
