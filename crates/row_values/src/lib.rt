// The values of one cell, by its columns and along a cursor, in the old and in the file reading.
//
// A cursor is opened with the cell's checks, once (`row::cursor`), and then goes along the columns (`old::next`, `file::next`) with
// no check made twice; each of its answers is that of `old::value` or `file::value` for the column: a theorem of `extents`.
#![tactic(auto)]

pub mod file;
pub mod old;
