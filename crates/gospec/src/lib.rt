// The Go specification's sections on type identity, comparison, selectors, method sets and calls as relations (specs/), and the proof that the rules
// agree with them (proofs/). The crate has no code.
#![tactic(auto)]
