// Laws of walks, ways and levels: what the search of S rests on, over any graph of types (specs/Graph.antt) and for the tables of the rules
// (specs/OfTable.antt). The crate has no code.
#![tactic(auto)]
