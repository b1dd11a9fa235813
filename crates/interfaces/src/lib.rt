// Laws of the full method lists of interfaces that embed interfaces (document 02, point 7): what the lists are (specs/FullList.antt), how they are read off the methods of
// all interfaces and sets of what each reaches, with no list written out (specs/Runs.antt, specs/Orders.antt, specs/Held.antt), and refusals 16 and 17 (specs/Orders.antt,
// specs/Clashes.antt). They stand over the interfaces of a table with E lines beside it (specs/Interfaces.antt, specs/OfTable.antt). The crate has no code.
#![tactic(auto)]
