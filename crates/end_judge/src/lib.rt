// What every operation but start refuses first: STORE and STATE. An end and its store come apart to this point, as callers lend them (document
// 01); that they belong together is found here, and a `Ring` holds both from then on where only they are read.

#![tactic(auto)]

ghost use Rattle.std.specs.Prelude.{◌≡◌, cond, ltb};
ghost use Rattle.end_state.specs.Refusals.{store_is, counts_sound as counts_sound_of, numbers_sound as numbers_sound_of};
ghost use Rattle.end_judge.specs.Judge.{judged};

use end_state::ring::Ring;
use end_state::{End, Refusal, walk};
use flit_number::FlitCount;

// 1 STORE: the store is the one that the state was started with.
fn is_its_store(e: End, bytes: usize) -> bool
    ensures { result ≡ store_is e bytes }
{
    end_state::is_store(bytes) & (bytes / End::FLIT == e.capacity.0)
}

// 2 STATE, the counts.
fn counts_sound(e: End) -> bool
    ensures { result ≡ counts_sound_of e }
{
    (e.first < e.capacity.0)
        & (e.held.0 <= e.capacity.0)
        & (e.kept.0 <= End::LONGEST)
        & (e.owed.0 <= End::LONGEST)
        & (e.gathered.0 <= e.owed.0)
        & (!e.stalled | (e.gathered.0 == 0))
        & (e.untold.0 <= End::MOST)
        & (e.discards <= 63)
}

// 2 STATE, the numbers.
fn numbers_sound(e: End) -> bool
    ensures { result ≡ numbers_sound_of e }
{
    let cursor = flit_number::flits_between(e.oldest, e.cursor);
    let sent = flit_number::flits_between(e.oldest, e.sent);
    let acknowledged = flit_number::flits_between(e.oldest, e.acknowledged);
    let most = inside_oldest(e);
    (cursor.0 <= e.held.0)
        & (cursor.0 <= sent.0)
        & (sent.0 <= e.held.0)
        & (acknowledged.0 <= most)
        & (acknowledged.0 <= sent.0)
}

// How far the acknowledged number may lie past the oldest: inside the oldest unit, or nowhere where none is held.
fn inside_oldest(e: End) -> usize
    ensures { result ≡ cond (ltb 0 e.held.0) e.kept.0 0 }
{
    if 0 < e.held.0 { e.kept.0 } else { 0 }
}

// The run lengths of the control flit before the cursor and of the last one accepted.
#[derive(Clone, Copy)]
pub struct Runs {
    pub previous: FlitCount,
    pub last: FlitCount,
}

// STORE and STATE, or the run lengths.
pub fn judge(e: End, store: &[u8]) -> Result<Runs, Refusal>
    ensures { result ≡ judged e store.now }
{
    if !is_its_store(e, store.len()) {
        return Err(Refusal::Store);
    }
    if !(counts_sound(e) & numbers_sound(e)) {
        return Err(Refusal::State);
    }
    let cursor = flit_number::flits_between(e.oldest, e.cursor);
    let cut = walk::cut_units(Ring { end: &e, store }, cursor);
    if !(cut.whole.border & cut.whole.sound & cut.cursor.border) {
        return Err(Refusal::State);
    }
    Ok(Runs {
        previous: FlitCount(cut.cursor.run),
        last: FlitCount(cut.whole.run),
    })
}
