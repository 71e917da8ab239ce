// Patterns, read directly from their stored bytes, as the `glob` crate's `Pattern` reads them: the test of a bracket, and where it closes. What is refused
// of a pattern is asked in pattern_check, and the matcher stands in matching. Definitions: specs/Patterns.antt, specs/Runs.antt and
// specs/Storing.antt, from document 01 and request 01 of document 02.
#![tactic(auto)]

pub mod bracket;
