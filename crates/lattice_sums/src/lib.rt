// The corner sums, taken point after point, and the totals that they come to. Each function promises a definition of `lattice`; specs/ has
// the sums as they are taken. Stands on `lattice` and on the weights of `lattice_weights`.
#![tactic(auto)]

pub mod sums;
