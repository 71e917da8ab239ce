// version_script.rs, the book's side: the locality of a name. Definitions: crate lookups, specs/Lookups.antt, from document 01, 'Ranking'. The question asks
// first whether the buffers hold a book (14); `locality_in_book` is for callers who know it.
ghost use Rattle.std.specs.Prelude.{◌≡◌, true, ◌≤◌, length};
ghost use Rattle.numbers.specs.Limits.{name_limit, node_limit};
ghost use Rattle.packing.specs.Tables.{packs, things};
ghost use Rattle.book.specs.Lending.{view_of};
ghost use Rattle.book.specs.Layout.{five, frame_of, line_form};
ghost use Rattle.book.specs.Sanity.{line_ok};
ghost use Rattle.book.specs.View.{holds, view};
ghost use Rattle.ranking.specs.Matching.{name_of};
ghost use Rattle.lookups.specs.Lookups.{locality_among, locality_asked};

use crate::answers::Locality;
use crate::listing::first_listed;
use book::codes::section_of;
use book::lent::Lent;
use book::{Counts, EXPORT, LINE_WIDTH, RUST, frame_of};
use book_check::Held;
use numbers::{GLOBAL, Refusal};
use ranking::finding::find_match;
use ranking::names::name_refusal;

// The section of the deciding line.
fn decided_locality(
    c: Counts,
    lines: &[u32],
    pool: &[u8],
    raw: &[u8],
    demangled: &[u8],
) -> Option<Locality>
    requires { (packs line_form (line_ok (frame_of c)) c.lines c.pool lines.now pool.now ≡ true) × (c.nodes ≤ node_limit)
        × (length raw.now ≤ name_limit) × (length demangled.now ≤ name_limit) }
    ensures { result ≡ locality_among (frame_of c) (name_of raw.now demangled.now)
        (things line_form c.lines lines.now pool.now) }
{
    let i = find_match(
        frame_of(c),
        lines,
        pool,
        c.lines as usize,
        c.pool as usize,
        raw,
        demangled,
    )?;
    if section_of(lines[LINE_WIDTH * i + 1]) == GLOBAL {
        return Some(Locality::Global);
    }
    Some(Locality::Local)
}

// Whether a name is global or local, or nothing decides it, in buffers that hold a book.
pub fn locality_in_book(
    book: Held,
    raw: &[u8],
    demangled: &[u8],
) -> Result<Option<Locality>, Refusal>
    ensures { result ≡ locality_asked
        (view_of book.entry.lent)
        (name_of raw.now demangled.now) }
{
    let c = book.lent.counts;
    if c.kind == EXPORT {
        return Err(Refusal::WrongKind);
    }
    name_refusal(raw, demangled, false)?;
    if c.kind == RUST {
        if first_listed(c, book.lent.lines, book.lent.pool, raw).is_some() {
            return Ok(Some(Locality::Global));
        }
        return Ok(Some(Locality::Local));
    }
    Ok(decided_locality(c, book.lent.lines, book.lent.pool, raw, demangled))
}

// Whether a name is global or local, or nothing decides it.
pub fn locality(book: Lent, raw: &[u8], demangled: &[u8]) -> Result<Option<Locality>, Refusal>
    ensures { result ≡ locality_asked
        (view_of book.entry)
        (name_of raw.now demangled.now) }
{
    match Held::of(book) {
        Ok(held) => locality_in_book(held, raw, demangled),
        Err(no) => Err(no),
    }
}
