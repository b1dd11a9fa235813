// The rules of document 01 as definitions that compute: loading, identity, comparability, selection, method sets, missing methods, the answers, the call
// and the program. The crate has no code; the contracts of every other crate cite its specs/.
#![tactic(auto)]
