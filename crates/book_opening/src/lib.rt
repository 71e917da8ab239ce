// Opening a text into lent buffers: the events of its reading, taken one by one (the crate `book_building`). Definitions: specs/Opening.antt, from document 01,
// 'Reading', 'Ranking' (the Rust kind), 'The book' and 'Numbers that say no'.
#![tactic(auto)]

ghost use Rattle.book.specs.Layout.{five};
ghost use Rattle.book_opening.specs.State.{Opens};

use crate::events::fill;
use book::Counts;
use book_building::clear_book;
use packing::clear_numbers;
use reading_cursors::places::Place;

mod events;

// How a text is opened: from which place of the grammar on it is read.
#[derive(Clone, Copy)]
pub struct How {
    pub place: Place,
}

impl How {
    pub const SCRIPT: How = How {
        place: Place::AtScript,
    };

    pub const LIST: How = How {
        place: Place::AtList,
    };
}

// What an opening answers: 0 and the counts, or the number that says no, its place in the text, and zero counts.
#[derive(Clone, Copy)]
pub struct Opened {
    pub refusal: u32,
    pub place: usize,
    pub counts: Counts,
}

// The counts of the book that a text gives, or the number that says no and the place.
#[derive(Clone, Copy)]
pub enum Built {
    Done(Counts),
    Refused(u32, usize),
}

// A text, opened into lent buffers.
pub fn open(
    how: How,
    text: &[u8],
    nodes: &mut [u32],
    names: &mut [u8],
    lines: &mut [u32],
    pool: &mut [u8],
    journal: &mut [u32],
) -> Opened
    ensures { Opens how (five nodes.old names.old lines.old pool.old journal.old)
        text.now result (five nodes.new names.new lines.new pool.new journal.new) }
{
    clear_book(nodes, names, lines, pool);
    clear_numbers(journal);
    fill(how, text, nodes, names, lines, pool)
}
