// The abstract link: a crate of definitions and theorems, with no code of its own.

#![tactic(auto)]
