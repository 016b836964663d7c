// What accept refuses (01, "Refusals by number").

#![tactic(auto)]

ghost use Rattle.std.specs.Prelude.{◌≡◌};
ghost use Rattle.accept_verdict.specs.Admission.{unit_shaped as unit_shaped_of, accept_verdict};

use end_state::{End, Refusal};

// The refusals of accept, in the table's order.
pub fn verdict(e: End, store: &[u8], unit: &[u8]) -> Result<(), Refusal>
    ensures { result ≡ accept_verdict e store.now unit.now }
{
    let runs = end_judge::judge(e, store)?;
    let bytes = unit.len();
    if !unit_shaped(bytes) {
        return Err(Refusal::Shape);
    }
    if e.mode.is_down() {
        return Err(Refusal::Down);
    }
    let flits = bytes / End::FLIT;
    if flits - 1 != runs.last.0 {
        return Err(Refusal::Run);
    }
    if !flit_read::read::acceptable(&unit[bytes - End::FLIT..]) {
        return Err(Refusal::Field);
    }
    if e.capacity.0 < e.held.0 + flits {
        return Err(Refusal::Full);
    }
    Ok(())
}

// 3 SHAPE.
fn unit_shaped(bytes: usize) -> bool
    ensures { result ≡ unit_shaped_of bytes }
{
    (0 < bytes) & (bytes <= End::HOLD) & (bytes % End::FLIT == 0)
}
