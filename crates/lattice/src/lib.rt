#![tactic(auto)]

// Unit cells, the eight cells about a lattice point, and what they weigh.
//
// specs/ defines cells, the four totals, patterns, weights, corner points and listings in the words of docs/SCOPE.md;
// proofs/Agreement.antt states what they have to do with each other. Nothing runs here: the code that reads a pattern byte is in
// `lattice_edges` and `lattice_weights`. Below: `ground`, which has the sums and what is plain of Bools and numbers.
