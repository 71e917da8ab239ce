// A script and its symbols' lines, as verlist prints them, into a lent buffer, from document 01, 'Known points' (the program `verlist`). Definition:
// specs/Script.antt.
ghost use Rattle.std.specs.Prelude.{◌≡◌, true, ◌+◌, ◌*◌, ◌<◌, ◌≤◌, length};
ghost use Rattle.numbers.specs.Refusals.{too_long};
ghost use Rattle.lists.specs.Front.{front};
ghost use Rattle.book.specs.Lending.{holds_book, view_of};
ghost use Rattle.book.specs.Layout.{five};
ghost use Rattle.book.specs.View.{holds, view};
ghost use Rattle.book_opening.specs.Opening.{as_script, cleared, declined, opening};
ghost use Rattle.printing.specs.Printing.{Begins, refused_line};
ghost use Rattle.printing_listing.specs.Script.{Prints, opened_printed, with_refusal};
ghost use Rattle.printing_symbols.specs.Lines.{tail_room, byte_room, counts_room};

use crate::symbols::render_symbols;
use book::lent::Lent;
use book_check::Held;
use numbers::TOO_LONG;
use packing::{clear_bytes, clear_numbers};
use printing::put_refused_line;
use printing_symbols::render_counts;
use version_script::open;

// How many bytes are printed, and the refusal with its place, or 0: the script's, that of an input over the limit, or that of an `out` without room.
#[derive(Clone, Copy)]
pub struct Listed {
    pub length: usize,
    pub refusal: u32,
    pub place: usize,
}

// A refusal, and its line.
fn render_listing_refused(no: u32, place: usize, out: &mut [u8]) -> Listed
    requires { tail_room ≤ length out.old }
    ensures { (result ≡ with_refusal (length (refused_line no)) (declined no place)) × (out.new ≡ front (refused_line no) out.old) }
{
    let length = put_refused_line(out, no);
    Listed {
        length,
        refusal: no,
        place,
    }
}

// The refusal of an input over the limit, and its line; the buffers are zeros then, as behind any refused opening.
pub fn render_too_long(
    nodes: &mut [u32],
    names: &mut [u8],
    lines: &mut [u32],
    pool: &mut [u8],
    journal: &mut [u32],
    out: &mut [u8],
) -> Listed
    requires { tail_room ≤ length out.old }
    ensures { (result ≡ with_refusal (length (refused_line too_long)) (declined too_long 0))
        × (out.new ≡ front (refused_line too_long) out.old)
        × (five nodes.new names.new lines.new pool.new journal.new
        ≡ cleared (five nodes.old names.old lines.old pool.old journal.old)) }
{
    clear_numbers(nodes);
    clear_bytes(names);
    clear_numbers(lines);
    clear_bytes(pool);
    clear_numbers(journal);
    render_listing_refused(TOO_LONG, 0, out)
}

// What is printed behind an opening: the refusal's line, or the book's counts and its symbols' lines. Answers how many bytes that are.
fn render_opened(refusal: u32, book: Lent, symbols: &[u8], out: &mut [u8]) -> usize
    requires { (tail_room ≤ length out.old) × (0 < length symbols.now → counts_room + tail_room + byte_room * length symbols.now ≤ length out.old)
        × (refusal ≡ 0 → holds_book book ≡ true) }
    ensures { Begins out.old
        (opened_printed refusal (view_of book.entry)
        symbols.now) out.new result }
{
    if refusal != 0 {
        return put_refused_line(out, refusal);
    }
    let from = render_counts(book, out);
    render_symbols(Held { lent: book }, symbols, from, out)
}

// A script and its symbols' lines.
pub fn render_script(
    script: &[u8],
    symbols: &[u8],
    nodes: &mut [u32],
    names: &mut [u8],
    lines: &mut [u32],
    pool: &mut [u8],
    journal: &mut [u32],
    out: &mut [u8],
) -> Listed
    requires { (tail_room ≤ length out.old) × (0 < length symbols.now → counts_room + tail_room + byte_room * length symbols.now ≤ length out.old) }
    ensures { Prints (five nodes.old names.old lines.old pool.old journal.old)
        (λ b. opening as_script b script.now) symbols.now out.old result out.new
        (five nodes.new names.new lines.new pool.new journal.new) }
{
    let opened = open(script, nodes, names, lines, pool, journal);
    let book = Lent {
        counts: opened.counts,
        nodes,
        names,
        lines,
        pool,
        journal,
    };
    let length = render_opened(opened.refusal, book, symbols, out);
    Listed {
        length,
        refusal: opened.refusal,
        place: opened.place,
    }
}
