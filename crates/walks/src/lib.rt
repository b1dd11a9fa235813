// The kept walks: at most two to each type, and none to a type that a shorter walk reaches. S is read off them, and what else asks which members a type has
// through its embedded fields. Definitions and laws over any graph of types (specs/Kept.antt, specs/Rows.antt) and for tables; the crate has no code.
#![tactic(auto)]
