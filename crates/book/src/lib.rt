// The book: its counts and its frame, its kinds, the widths of its rows, a line's code and row, and a search of its nodes. Definitions: specs/Books.antt (the
// book apart from buffers), specs/Layout.antt (how it stands in lent buffers), specs/Edits.antt, specs/Sanity.antt and specs/View.antt (what is one, and what
// is refused 14), from document 01, 'The book' and 'Numbers that say no', and document 02, request 02.
#![tactic(auto)]

ghost use Rattle.std.specs.Prelude.{◌≡◌};
ghost use Rattle.book.specs.Layout.{counts_with, frame_of, no_counts};

pub mod codes;
pub mod editions;
pub mod lent;
pub mod nodes;
pub mod rows;

// "The book's counts …: kind, nodes, name bytes, lines, pool bytes, edits."
#[derive(Clone, Copy)]
pub struct Counts {
    pub kind: u32,
    pub nodes: u32,
    pub names: u32,
    pub lines: u32,
    pub pool: u32,
    pub edits: u32,
}

// What a book's lines are read and ranked by: its kind, and how many nodes it has.
#[derive(Clone, Copy)]
pub struct Frame {
    pub kind: u32,
    pub nodes: u32,
}

// The kinds of a book.
pub const REGULAR: u32 = 0;

pub const RUST: u32 = 1;

pub const EXPORT: u32 = 2;

// How many numbers a row has.
pub const NODE_WIDTH: usize = 3;

pub const LINE_WIDTH: usize = 5;

pub const EDIT_WIDTH: usize = 2;

// "32 is added to a struck line's code."
pub const STRUCK: u32 = 32;

// The frame of a book with those counts.
pub fn frame_of(counts: Counts) -> Frame
    ensures { result ≡ frame_of counts }
{
    Frame {
        kind: counts.kind,
        nodes: counts.nodes,
    }
}

// The counts of no book.
pub fn no_counts() -> Counts
    ensures { result ≡ no_counts }
{
    Counts {
        kind: 0,
        nodes: 0,
        names: 0,
        lines: 0,
        pool: 0,
        edits: 0,
    }
}

// The counts of the same nodes, with other lines and edits.
pub fn counts_with(c: Counts, lines: u32, pool: u32, edits: u32) -> Counts
    ensures { result ≡ counts_with c lines pool edits }
{
    Counts {
        lines,
        pool,
        edits,
        ..c
    }
}
