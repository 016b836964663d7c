// The bench cases (01, "Bench cases"): specs/Cases.antt is the table, and its theorem stands as a contract.

#![tactic(auto)]

ghost use Rattle.proof_cases.specs.Cases.{BenchCases};

// Each case of the table holds. It does nothing; its contract is the theorem.
pub fn cases_hold()
    ensures { BenchCases }
{}
