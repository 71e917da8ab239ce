// Strike, of the trial book. A refusal changes nothing. Definitions: trial/specs/Trial.antt (`strike_asked`), from document 01, 'The book'. It asks first
// whether the buffers hold a book (14). What it makes of the lines' offsets (02, request 02): trial/specs/Offsets.antt.
#![tactic(auto)]

ghost use Rattle.book.specs.Layout.{five};
ghost use Rattle.trial.specs.Changes.{Answers};
ghost use Rattle.trial.specs.Trial.{strike_asked};

use book::codes::is_struck;
use book::lent::Lent;
use book::{Counts, EDIT_WIDTH, LINE_WIDTH, RUST, STRUCK, counts_with};
use book_check::is_book;
use book_rooms::has_edit;
use copying::put_two;
use numbers::{NO_BOOK, NO_ROOM, NO_SUCH, WRONG_KIND};
use trial::STRIKE;

// A line that stands is struck. Every line keeps its offset (`StrikeOffsets`).
pub fn strike(
    c: Counts,
    nodes: &[u32],
    names: &[u8],
    lines: &mut [u32],
    pool: &[u8],
    journal: &mut [u32],
    line: u32,
) -> Result<Counts, u32>
    ensures { Answers c (five nodes.now names.now lines.old pool.now journal.old)
        (λ b w. strike_asked b w line)
        result (five nodes.now names.now lines.new pool.now journal.new) }
{
    if !is_book(Lent {
        counts: c,
        nodes,
        names,
        lines,
        pool,
        journal,
    }) {
        return Err(NO_BOOK);
    }
    if c.kind == RUST {
        return Err(WRONG_KIND);
    }
    if c.lines <= line {
        return Err(NO_SUCH);
    }
    let at = LINE_WIDTH * (line as usize) + 1;
    let code = lines[at];
    if is_struck(code) {
        return Err(NO_SUCH);
    }
    let e = c.edits as usize;
    if !has_edit(journal, e) {
        return Err(NO_ROOM);
    }
    lines[at] = code + STRUCK;
    put_two(journal, EDIT_WIDTH * e, STRIKE, line);
    Ok(counts_with(c, c.lines, c.pool, c.edits + 1))
}
