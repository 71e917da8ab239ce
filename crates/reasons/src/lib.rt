// Why a name has its version: the line that decides, and what is told of it. Definitions: specs/Why.antt, from document 02, request 03; that the line is the
// one that the request names, and that version, locality and membership are read off it: specs/Named.antt. The question is asked in `asking`, over the lines
// that `telling` finds and tells of.
#![tactic(auto)]

pub mod asking;
pub mod telling;

// A line of a book: "number, class, node, section, language and offset".
#[derive(Clone, Copy, Debug, PartialEq, Eq)]
pub struct Reason {
    pub line: u32,
    pub class: u32,
    pub node: u32,
    pub section: u32,
    pub language: u32,
    pub offset: u32,
}

// The line that decides, that no line matches, or that the wanted version decides.
#[derive(Clone, Copy, Debug, PartialEq, Eq)]
pub enum Why {
    Line(Reason),
    NoLine,
    Wanted,
}
