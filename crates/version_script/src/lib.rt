// version_script.rs, the book's side: a version script opened into lent buffers. Definitions: those of the crate `book_opening`. Its counts and its nodes are
// asked in counting.
#![tactic(auto)]

ghost use Rattle.book.specs.Layout.{five};
ghost use Rattle.book_opening.specs.Opening.{as_script};
ghost use Rattle.book_opening.specs.State.{Opens};

use book_opening::{How, Opened};

// A version script, opened into lent buffers.
pub fn open(
    text: &[u8],
    nodes: &mut [u32],
    names: &mut [u8],
    lines: &mut [u32],
    pool: &mut [u8],
    journal: &mut [u32],
) -> Opened
    ensures { Opens as_script (five nodes.old names.old lines.old pool.old journal.old)
        text.now result (five nodes.new names.new lines.new pool.new journal.new) }
{
    book_opening::open(How::SCRIPT, text, nodes, names, lines, pool, journal)
}
