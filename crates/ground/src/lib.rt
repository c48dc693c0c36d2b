#![tactic(auto)]

// Plain facts: Bools, numbers and lists, and nothing else.
//
// specs/ has sums, lists and tests over 0, 1, .. n - 1; proofs/ has their laws, and those of Bools and tests that the kit's library lacks.
// A law that speaks of a cell, a shot or a refusal stands in the crate that defines it. No code, and no crate below.
