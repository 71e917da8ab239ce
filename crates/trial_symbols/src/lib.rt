// export_list.rs, the book's side: "`add_symbol` on an export list is one add per line, all or none." Definitions: trial/specs/Symbols.antt, from document 01,
// 'The book'. It asks first whether the buffers hold a book (14); what it does then stands in `lines`. What it makes of the lines' offsets (02,
// request 02): trial/specs/Offsets.antt.
#![tactic(auto)]

ghost use Rattle.std.specs.Prelude.{◌≡◌};
ghost use Rattle.book.specs.Layout.{five};
ghost use Rattle.trial.specs.Changes.{Answers};
ghost use Rattle.trial.specs.Symbols.{symbol_asked, symbol_place};

use crate::lines::add_lines;
use book::lent::Lent;
use book::{Counts, EXPORT};
use book_check::is_book;
use numbers::{NO_BOOK, TOKEN_LIMIT, TOO_LONG, WRONG_KIND};
use reading_cursors::places::Place;

pub mod events;
pub mod lines;

// The place of the grammar from which a text is read.
fn place_of(without_semicolon: bool) -> Place
    ensures { result ≡ symbol_place without_semicolon }
{
    if without_semicolon {
        return Place::AtBare;
    }
    Place::AtSymbol
}

// The lines of one matcher, each of the offset 0 (`SymbolOffsets`); `without_semicolon` says how it ends.
pub fn add_symbol(
    c: Counts,
    nodes: &[u32],
    names: &[u8],
    lines: &mut [u32],
    pool: &mut [u8],
    journal: &mut [u32],
    text: &[u8],
    without_semicolon: bool,
) -> Result<Counts, u32>
    ensures { Answers c (five nodes.now names.now lines.old pool.old journal.old)
        (λ b w. symbol_asked b w text.now without_semicolon)
        result (five nodes.now names.now lines.new pool.new journal.new) }
{
    if !is_book(Lent {
        counts: c,
        nodes,
        names,
        lines,
        pool,
        journal,
    }) {
        return Err(NO_BOOK);
    }
    if c.kind != EXPORT {
        return Err(WRONG_KIND);
    }
    if TOKEN_LIMIT < text.len() {
        return Err(TOO_LONG);
    }
    add_lines(
        c,
        nodes,
        names,
        lines,
        pool,
        journal,
        text,
        place_of(without_semicolon),
    )
}
