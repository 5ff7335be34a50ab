// The stain, and the theorem that two playings which differ in one source's pixels agree outside it. It is all in specs/
// and proofs/: the code is in the crates above.
#![tactic(auto)]
