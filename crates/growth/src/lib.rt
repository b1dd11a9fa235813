// A library that grew: the relation of two tables, and what it promises for the answers of S and N (specs/Grown.antt, specs/Promise.antt; the theorem is
// proofs/Promised.antt). The crate has no code.
#![tactic(auto)]
