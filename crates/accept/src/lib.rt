// Accept takes one unit from the transaction layer: its data flits, then its control flit. The buffers come in apart, as callers lend them.

#![tactic(auto)]

ghost use Rattle.std.specs.Prelude.{◌≡◌, ◌+◌, ◌*◌, ◌<◌, ◌≤◌, length};
ghost use Rattle.accept.specs.Accept.{flits_stored, accept as accept_of, accept_store};

use end_state::{Answered, End, Refusal, ring};
use flit_number::FlitCount;

// Takes a unit into the store. A refusal changes neither the state nor the store.
pub fn accept(e: End, store: &mut [u8], unit: &[u8]) -> Answered<Result<(), Refusal>>
    ensures value { result ≡ accept_of e store.old unit.now }
    ensures store_after { store.new ≡ accept_store e store.old unit.now }
{
    let answer = accept_verdict::verdict(e, store, unit);
    match answer {
        Err(_) => Answered { answer, end: e },
        Ok(()) => {
            let flits = unit.len() / End::FLIT;
            store_unit(e, store, unit, flits);
            Answered {
                answer,
                end: End {
                    held: FlitCount(e.held.0 + flits),
                    ..e
                },
            }
        }
    }
}

// Writes a unit to the places after the held flits. A `Ring` lends its store to be read alone, so it does not serve here.
fn store_unit(e: End, store: &mut [u8], unit: &[u8], flits: usize)
    requires { (length store.old ≡ e.capacity.0 * 64) × (e.capacity.0 ≤ 1024) × (e.first < e.capacity.0) × (e.held.0 + flits ≤ e.capacity.0) × (length unit.now ≡ flits * 64) }
    ensures { store.new ≡ flits_stored e.capacity.0 e.first e.held.0 store.old unit.now flits }
{
    for n in 0..flits {
        let to = ring::place(e.capacity.0, e.first, e.held.0 + n);
        ring::copy_flit(unit, n, store, to);
    }
}
