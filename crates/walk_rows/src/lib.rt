// The rows of kept walks in lent records: the first row, the rows of the level below, and the way to a row, each proved to be as crate walks has it
// (specs/Rows.antt there). Which name is asked for plays no part, nor which types are identical.
#![tactic(auto)]

pub mod enter; // one row
pub mod lower; // the level below
pub mod places; // the way to a row
pub mod records; // the rows in lent records

// What the rows below a row have of it: its number, whether a pointer was removed to come to it, the level below its own, and where the rows of that level
// begin.
#[derive(Clone, Copy)]
pub struct Above {
    pub row: u32,
    pub flag: bool,
    pub level: u32,
    pub from: usize,
}
