// Identity and comparability of types, as goscript's typ.rs has them, on the rows of a loaded table: `identical` and `comparable`. Crate type_parts says
// what a type is made of, and has `BasicType` with `real_type`; crate pair_marks has what a comparison keeps.
#![tactic(auto)]

pub mod comparable; // C
pub mod identical; // I
pub mod opening; // pairs that were put off
