#![tactic(auto)]

// The jobs of docs/SCOPE.md's table that are proved: their totals by the definitions of `lattice`, as one theorem, proofs/KnownTotals.antt.
// The theorem is computed, which takes long, so it has a crate of its own.
