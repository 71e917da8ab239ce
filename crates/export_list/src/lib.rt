// export_list.rs, the book's side: an export list opened into lent buffers, and whether it contains a name. Definitions: specs/Membership.antt, from document
// 01, 'Ranking'; the opening's is that of the crate `book_opening`. The question asks first whether the buffers hold a book (14).
#![tactic(auto)]

ghost use Rattle.book.specs.Layout.{five};
ghost use Rattle.book_opening.specs.Opening.{as_list};
ghost use Rattle.book_opening.specs.State.{Opens};

use book_opening::{How, Opened};

pub mod lookups;

// An export list, opened into lent buffers.
pub fn open(
    text: &[u8],
    nodes: &mut [u32],
    names: &mut [u8],
    lines: &mut [u32],
    pool: &mut [u8],
    journal: &mut [u32],
) -> Opened
    ensures { Opens as_list (five nodes.old names.old lines.old pool.old journal.old)
        text.now result (five nodes.new names.new lines.new pool.new journal.new) }
{
    book_opening::open(How::LIST, text, nodes, names, lines, pool, journal)
}
