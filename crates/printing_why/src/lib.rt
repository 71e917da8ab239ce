// What is printed of why a name has its version, into a lent buffer: the answer to a symbol's line. Definitions: specs/Splits.antt, specs/WhyLine.antt and
// specs/Whys.antt, from document 02, request 03. The pieces of a line stand in `fields`. These functions ask for room.
#![tactic(auto)]

ghost use Rattle.std.specs.Prelude.{◌≡◌, true, false, cond, ◌+◌, ◌≤◌, eqb, ltb, length, drop};
ghost use Rattle.book.specs.Books.{export};
ghost use Rattle.book.specs.Lending.{view_of};
ghost use Rattle.book.specs.Layout.{five};
ghost use Rattle.book.specs.View.{holds, view};
ghost use Rattle.ranking.specs.Matching.{name_of};
ghost use Rattle.lookups.specs.Lookups.{bytes_of};
ghost use Rattle.printing.specs.Printing.{Begins};
ghost use Rattle.printing_why.specs.WhyLine.{why_room};
ghost use Rattle.printing_why.specs.Whys.{asked_why, why_answered};

use crate::fields::{put_refused_name, put_why_line};
use book::EXPORT;
use book::lent::Lent;
use book_check::Held;
use input::splitting::{part_before, part_behind};
use reasons::asking::why_in_book;

pub mod fields;

// The demangled name of a symbol's line: what stands behind its first n bytes and the TAB, or where they are all the raw one again.
pub fn demangled_of<'a>(line: &'a [u8], n: usize, raw: &'a [u8]) -> &'a [u8]
    ensures { result.now ≡ cond (ltb n (length line.now)) (drop (n + 1) line.now) raw.now }
{
    if n < line.len() {
        return part_behind(line, n);
    }
    raw
}

// Whether a version is asked: not of an export list, and of others where a name of n bytes is not all of a symbol of that length.
fn has_version(kind: u32, n: usize, symbol: usize) -> bool
    ensures { result ≡ cond (eqb kind export) false (ltb n symbol) }
{
    if kind == EXPORT {
        return false;
    }
    n < symbol
}

// Why a name is answered as it is, in buffers that hold a book, where that version is wanted or none.
fn ask_why(
    book: Held,
    text: &[u8],
    raw: &[u8],
    demangled: &[u8],
    wanted: Option<&[u8]>,
    out: &mut [u8],
) -> usize
    requires { length raw.now + book.lent.counts.names + why_room ≤ length out.old }
    ensures { Begins out.old
        (asked_why text.now
        (view_of book.entry.lent)
        (name_of raw.now demangled.now) (bytes_of wanted.entry)) out.new result }
{
    let lent = book.lent;
    let c = lent.counts;
    let y = why_in_book(book, raw, demangled, wanted);
    put_why_line(out, text, lent.nodes, lent.names, c.nodes, c.names, raw, y)
}

// A symbol's line, asked of buffers that hold a book.
pub fn render_why_in_book(book: Held, text: &[u8], line: &[u8], out: &mut [u8]) -> usize
    requires { length line.now + book.lent.counts.names + why_room ≤ length out.old }
    ensures { Begins out.old
        (why_answered text.now
        (view_of book.entry.lent)
        line.now) out.new result }
{
    let c = book.lent.counts;
    let symbol = part_before(line, b'\t');
    let raw = part_before(symbol, b'@');
    let demangled = demangled_of(line, symbol.len(), raw);
    let has_wanted = has_version(c.kind, raw.len(), symbol.len());
    ask_why(
        book,
        text,
        raw,
        demangled,
        has_wanted.then_some(part_behind(symbol, raw.len())),
        out,
    )
}

// A symbol's line, asked of a book, if the buffers hold one.
pub fn render_why(book: Lent, text: &[u8], line: &[u8], out: &mut [u8]) -> usize
    requires { length line.now + book.counts.names + why_room ≤ length out.old }
    ensures { Begins out.old
        (why_answered text.now
        (view_of book.entry)
        line.now) out.new result }
{
    match Held::of(book) {
        Ok(held) => render_why_in_book(held, text, line, out),
        Err(no) => {
            let symbol = part_before(line, b'\t');
            put_refused_name(out, part_before(symbol, b'@'), no.number())
        }
    }
}
