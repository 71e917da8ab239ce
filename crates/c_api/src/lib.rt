// The library for C, C++ and Rust programs: numbers and slices. A slice is a pointer, then a length; who calls lends valid memory, and what a call may write
// overlaps nothing else that it is lent; what is only read may overlap. The book is six lent buffers: its counts, six numbers, then nodes, names, lines, pool
// and journal. An opening answers 0, or the refusal's number and 256 times its place in the text; every other call answers 0 or the refusal's number. Each
// hands on to one function of `lent_openings`, `lent_questions`, `lent_why`, `lent_additions` or `lent_edits`. Definitions: c_lending/specs/Calls.antt.
#![tactic(auto)]

pub mod edits;
pub mod lent_additions;
pub mod lent_edits;
pub mod lent_openings;
pub mod lent_questions;
pub mod lent_why;
pub mod openings;
pub mod questions;
