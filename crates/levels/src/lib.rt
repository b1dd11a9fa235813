// The levels of the kept walks, whose rows crate walk_rows has. S: the first level that has the name decides, and no level below it is made. All levels: for
// questions about every name.
#![tactic(auto)]

use objects::{ObjKey, TypeKey};

pub mod all; // all levels
pub mod hits; // the rows of a level that have the name
pub mod search; // the levels

// A row whose type has the name: its number, and the first member of the name with its place.
#[derive(Clone, Copy)]
pub struct Found {
    pub row: u32,
    pub place: u32,
    pub member: ObjKey,
}

// What is searched: a type, whether a pointer was removed to come to it, and whether the operand is addressable.
#[derive(Clone, Copy)]
pub struct Start {
    pub typ: TypeKey,
    pub flag: bool,
    pub addressable: bool,
}
