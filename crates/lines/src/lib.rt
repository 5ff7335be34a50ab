// 01's twelve worked numbers, as one table over the definitions. It is all in specs/ and proofs/: the code is in the
// crates below.
#![tactic(auto)]
