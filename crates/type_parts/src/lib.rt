// What a type is made of, read off the rows of a loaded table: its kind's own number, its parts and members by their places. `BasicType` with `real_type` is
// goscript's.
#![tactic(auto)]

pub mod basic; // the basic types
pub mod parts; // what a type is made of
