// The values of a record, in both readings: what a serial type and the bytes at a place stand for.
//
// `file` has what the file format says and `old` what the Rust shows, faults and all; `real` gives a real its 64 bits
// back whatever they are, and `narrow` the Rust's narrow integers at 64 bits; the bytes of a text or a blob are
// `parts::whole_part`. From the file format, 2.1 "Record Format", and the Rust's `Payload` and `column_values`.
#![tactic(auto)]

pub mod file;
pub mod narrow;
pub mod old;
pub mod real;
