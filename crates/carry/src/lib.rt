// A map of tables: one table found in another, its types renumbered and identical ones merged, its packages under their paths. The answers are the same, carried over
// (specs/Maps.antt, specs/Carry.antt; the theorem is proofs/Carried.antt). Tidying a table is such a map (proofs/TidyMaps.antt, proofs/Instances.antt; what it does is
// said in crate edits). The crate has no code.
#![tactic(auto)]
