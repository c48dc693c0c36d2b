#![tactic(auto)]

// Reading and writing shot files undo one another: proofs/RoundTrip.antt, over the calls of `shotfile_reader` and `shotfile_writer`.
// specs/Shortest.antt says when a file is in its shortest form. docs/SCOPE.md, 'Shot file'. No code. Stands on `shotfile_reader`,
// `shotfile_writer` and `shotfile_records`, and on `job`, `refusals`, `lattice`, `buffer` and `ground`.
