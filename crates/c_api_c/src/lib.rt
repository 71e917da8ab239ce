// The archive for C, C++ and Rust programs: each function that they call hands on to the one of `c_api` of the same name, which says what it does, and promises
// the same.
#![tactic(auto)]

pub mod edits;
pub mod openings;
pub mod questions;
