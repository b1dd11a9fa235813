// One line of a table text by its form (4): its letter, its kind's word and its fields, as the numbers of a row.
#![tactic(auto)]

pub mod fields;
pub mod forms;

use objects::PackageKey;
use text::Cursor;

// A field's place and length in the text, and the cursor behind it.
#[derive(Clone, Copy)]
pub struct Piece {
    pub at: u32,
    pub len: u32,
    pub rest: Cursor,
}

// What F and M lines have alike behind the name: the package, the number of the type, and the bit.
#[derive(Clone, Copy)]
pub struct Typed {
    pub pkg: Option<PackageKey>,
    pub t: u32,
    pub bit: u32,
    pub rest: Cursor,
}

// A line, by the numbers of its row. A tuple's elements are still to be read.
#[derive(Clone, Copy)]
pub enum Form {
    Package(u32, u32),
    Type(u32, u32, u32, u32),
    Tuple(Cursor),
    Member(u32, u32, Option<PackageKey>, u32, u32, u32, u32),
}
