// Two ends on a wire: definitions and theorems about the four operations, and the main theorem as a contract.

#![tactic(auto)]

ghost use Rattle.proof_wire.specs.Theorem.{ThirdTest};

// The third test of acceptance: two fresh ends over any run that is as the buyer says, both ways. It does nothing; its contract is the theorem.
pub fn wire_passes()
    ensures { ThirdTest }
{}
