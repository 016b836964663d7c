// Places of the ring, and flits copied to and from them.
ghost use Rattle.std.specs.Prelude.{◌≡◌, ◌+◌, ◌*◌, ◌<◌, ◌≤◌, length};
ghost use Rattle.end_state.specs.Ring.{ring_place, stored, flit_at, put_at};

use crate::End;
use flit_read::copy;

// An end with its store, which has its places.
#[derive(Clone, Copy)]
pub struct Ring<'a> {
    pub end: &'a End,
    pub store: &'a [u8],
    ghost whole: { length store.now ≡ end.now.capacity.0 * 64 },
    ghost most: { end.now.capacity.0 ≤ 1024 },
    ghost inside: { end.now.first < end.now.capacity.0 },
}

impl<'a> Ring<'a> {
    // The flit n after the oldest.
    pub fn flit(self, n: usize) -> &'a [u8]
        requires { n ≤ self.end.now.capacity.0 }
        ensures value { result.now ≡ stored self.entry.end.now self.entry.store.now n }
        ensures bytes { length result.now ≡ 64 }
    {
        let from = place(self.end.capacity.0, self.end.first, n) * 64;
        &self.store[from..from + 64]
    }
}

// The place n after the first, round a ring of so many places.
pub fn place(places: usize, first: usize, n: usize) -> usize
    requires { (first < places) × (n ≤ places) × (places ≤ 1024) }
    ensures value { result ≡ ring_place places first n }
    ensures upper_bound { result < places }
{
    let at = first + n;
    if at < places { at } else { at - places }
}

// Copies flit `at` of one slice over flit `over` of another. Flits are cut out by their number, since callers lend bytes (document
// 01), and go through a value, which is faster (`flit_read::copy`).
pub fn copy_flit(from: &[u8], at: usize, to: &mut [u8], over: usize)
    requires { (at * 64 + 64 ≤ length from.now) × (over * 64 + 64 ≤ length to.old) }
    ensures { to.new ≡ put_at to.old over (flit_at from.now at) }
{
    let start = at * 64;
    let first = over * 64;
    let flit: [u8; 64] = copy::taken(&from[start..start + 64]);
    copy::put(&mut to[first..first + 64], flit);
}
