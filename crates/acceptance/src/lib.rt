// What the tender asks, sentence by sentence, as the promises of functions that make the calls and nothing else: the crate for an
// acceptance reader to open first. A function here takes any numbers, bytes and slices. Its contract is the sentence, by a definition of
// the file in specs/ that is named as its own; so a call that promises less than the sentence leaves this crate unproved. In the order of
// the papers: condition_1, condition_2, condition_3, voxels for request (i), grids for (ii), cover_test for (iii) and (iv), credits for
// (iv), lengths for (v), sections for (vi), shortest_files for (vii), prices for (viii).
//
// Condition 1, which is of every call, stands in the promises of the calls themselves, a record each, of the answer, of its numbers and of
// every lent place: `Checks` (refusals/specs/Tests.antt) of `check`, `IndexCall` and `MeasureCall` (measure_intake/specs/Intake.antt) of
// `indexed`, `measure` and `recount`, `ListCall` (measure/specs/Answers.antt) of `list`, `CreditCall` (crediting/specs/Credits.antt) of
// `credit`, `PriceCall` (price/specs/Price.antt) of `price`, `WriteCall` (shotfile_writer/specs/Calls.antt) of `write`, `ReadCall`
// (shotfile_reader/specs/Calls.antt) of `read`, `VoxCall` (vox/specs/Vox.antt) of `read_vox`. condition_1 says what they come to. Stands on
// the calls.
#![tactic(auto)]

pub mod condition_1;
pub mod condition_2;
pub mod condition_3;
pub mod cover_test;
pub mod credits;
pub mod grids;
pub mod lengths;
mod parts;
pub mod prices;
pub mod sections;
pub mod shortest_files;
pub mod voxels;
