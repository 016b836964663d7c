// Three runs of two ends on a wire, computed: a crate of examples, with no code of its own.

#![tactic(auto)]
