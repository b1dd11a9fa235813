// The promises to the customer, each demand as one statement over texts and calls, in one file (proofs/Promises.antt), with the words that they are said in
// (specs/Demands.antt). The crate has no code.
#![tactic(auto)]
