// What the calls for C take and answer, and the readers' answers turned into it, there and back.
//
// C has no enums that hold something, and an exported function answers no reference, so each answer becomes a struct of numbers
// (`types`) by a function of its own. Nothing is decided here. A cursor along a row is handed back by its numbers, and every
// number stands for something: no turn refuses. What is said of pages is turned in `pages`, and what of a gather buffer in `sources`.
#![tactic(auto)]

pub mod refusals;
pub mod rows;
pub mod shown;
pub mod types;
