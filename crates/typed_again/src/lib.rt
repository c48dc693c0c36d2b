#![tactic(auto)]

// The text that the program `shots` prints for a file, taken for a typed list. proofs/Retyped.antt shows that it reads back as the
// file's list, and that the program `write_shots` then gives the same file; proofs/Fits.antt that the text fits the buffer of
// `write_shots`; proofs/Refused.antt that the text of a file which is refused is a mistake, so that nothing is lost silently. No code.
// Stands on `shotfile_text` and the crates of its lines, on `typed_list`, `typed_draft` and `typed_line`, on `shotfile` and `ground`.
