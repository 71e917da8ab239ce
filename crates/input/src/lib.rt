// The parts of a program's input: the text before a line `%%` and the lines behind it, a line's first `@`, and the line and column of a place. Definitions:
// specs/Splitting.antt and specs/Positions.antt.
#![tactic(auto)]

pub mod positions;
pub mod splitting;
