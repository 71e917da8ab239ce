// A line appended to a book in lent buffers, with its edit. Definitions: trial/specs/Trial.antt (`append`), from document 01, 'The book'.
ghost use Rattle.std.specs.Prelude.{◌≡◌, true, ◌≤◌, ◌<◌};
ghost use Rattle.numbers.specs.Marks.{cxx, local};
ghost use Rattle.storing.specs.Keeping.{keep};
ghost use Rattle.book.specs.Books.{edition_of};
ghost use Rattle.book.specs.Layout.{five};
ghost use Rattle.book.specs.View.{laid};
ghost use Rattle.trial.specs.Changes.{Makes};
ghost use Rattle.trial.specs.Trial.{append, unplaced};

use book::codes::code_of;
use book::editions::edition_of;
use book::rows::put_line;
use book::{Counts, EDIT_WIDTH, Frame, counts_with, frame_of};
use book_rooms::{has_edit, has_row, put_token};
use classes::class_number;
use copying::put_two;
use numbers::NO_ROOM;
use storing::store_token;
use trial::ADD;

// What refuses a token that has no row: 1, 5 or 6, else 8.
fn refusal_without_row(frame: Frame, token: &[u8]) -> u32
    ensures { result ≡ unplaced (keep (edition_of frame) token.now) }
{
    let mut nothing = [0u8; 1];
    match store_token(edition_of(frame), token, &mut nothing[..0]) {
        Err(no) => no.number(),
        Ok(_) => NO_ROOM,
    }
}

// A line of a node, in a section and a language, with a trimmed token.
pub fn append(
    c: Counts,
    nodes: &[u32],
    names: &[u8],
    lines: &mut [u32],
    pool: &mut [u8],
    journal: &mut [u32],
    node: u32,
    section: u32,
    language: u32,
    token: &[u8],
) -> Result<Counts, u32>
    requires { (laid c (five nodes.now names.now lines.old pool.old journal.old) ≡ true)
        × (node < c.nodes) × (section ≤ local) × (language ≤ cxx) }
    ensures { Makes c (five nodes.now names.now lines.old pool.old journal.old)
        (λ b w. append b w node section language token.now)
        result (five nodes.now names.now lines.new pool.new journal.new) }
{
    let frame = frame_of(c);
    let n = c.lines as usize;
    let e = c.edits as usize;
    if !has_row(lines, n) {
        return Err(refusal_without_row(frame, token));
    }
    if !has_edit(journal, e) {
        return Err(refusal_without_row(frame, token));
    }
    match put_token(edition_of(frame), token, c.pool as usize, pool) {
        Err(no) => Err(no.number()),
        Ok(stored) => {
            let code = code_of(class_number(stored.class), section, language);
            let size = stored.size as u32;
            put_line(lines, n, node, code, c.pool, size, 0);
            put_two(journal, EDIT_WIDTH * e, ADD, c.lines);
            Ok(counts_with(c, c.lines + 1, c.pool + size, c.edits + 1))
        }
    }
}
