// The lines of a table text become rows, or the text is refused by 2 to 6: its length, its header, and on each line in turn its form, its place and its room.
#![tactic(auto)]

pub mod adding;
pub mod reading;
