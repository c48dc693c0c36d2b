#![tactic(auto)]

// What it is to write a list at a place of a lent slice, and to write one list after another: specs/Wrote.antt, with its laws in proofs/.
// Every crate that fills a lent slice states it so. No code, and no crate below.
