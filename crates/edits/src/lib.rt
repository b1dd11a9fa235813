// What calls that write tables do with a table, as definitions alone: the text of a table, and the tidied table. Crate carry has what is promised of the answers,
// crates table_text and tidy the code.
#![tactic(auto)]
