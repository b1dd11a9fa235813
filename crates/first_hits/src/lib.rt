// The names of all methods that the types of kept rows have, ascending by id. For each of them the first method met, in the order of rows, and whether it is
// hidden: by another on its level, or by a field that is not deeper. With that the name is settled, whatever lies below.
#![tactic(auto)]

pub mod cover; // the fields, which only hide
pub mod gather; // the methods, row by row
pub mod names; // names in order

// What is kept of a name, under the key of the method that was met first.
#[derive(Clone, Copy, PartialEq, Eq)]
pub struct FirstHit {
    // the row where that method was met
    pub row: u32,
    // its place there
    pub place: u32,
    // 1 if the name is hidden; a word, since any hit may be lent
    pub hidden: u32,
}

impl FirstHit {
    // What a row of hits is filled with before the names are met.
    pub const EMPTY: FirstHit = FirstHit {
        row: 0,
        place: 0,
        hidden: 0,
    };
}

// Members of a row's type: so many from a first one on, which stand at the places from 0 on.
#[derive(Clone, Copy)]
pub struct Stretch {
    pub row: u32,
    pub first: u32,
    pub total: u32,
}
