// goscript's own functions (lookup.rs) written out on values, with their loops as they stand there, and the proofs that they give what the rules say.
// The crate has no code.
#![tactic(auto)]
