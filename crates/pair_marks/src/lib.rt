// What a comparison of types keeps: a mark for each pair of types that it has met, in lent words, and classes of types that count as identical. Crate typ compares.
#![tactic(auto)]

pub mod classes; // labels of types
pub mod marks; // bits in lent words
pub mod pairs; // numbers of pairs
