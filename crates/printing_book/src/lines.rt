// The lines of a book as the release desk shows them, put into a lent buffer. Definitions: specs/Shown.antt. `show_lines` is a leaf of `desk`: it asks
// for a book and for room.
ghost use Rattle.std.specs.Prelude.{◌≡◌, true, ◌+◌, ◌≤◌, ◌<◌, length};
ghost use Rattle.book.specs.Books.{with_offset};
ghost use Rattle.book.specs.Lending.{buffers_of};
ghost use Rattle.book.specs.Layout.{five, line_of};
ghost use Rattle.book.specs.View.{book_of, holds};
ghost use Rattle.printing.specs.Printing.{Begins, Puts};
ghost use Rattle.printing_book.specs.Shown.{fields_shown, line_shown, lines_shown, shown_room};

use book::codes::{class_of, language_of, section_of};
use book::rows::line_bytes;
use book::{LINE_WIDTH, STRUCK};
use book_check::Held;
use printing::{put_number, put_spaced, put_text};

// The numbers of a line, a blank before each: its node, class, section and language, its mark, how many bytes it has, and its offset.
fn put_fields(out: &mut [u8], at: usize, node: u32, code: u32, offset: u32, bytes: &[u8]) -> usize
    requires { (at + 77 ≤ length out.old) × (length bytes.now < 4294967296) }
    ensures { Puts out.old at (fields_shown (with_offset offset (line_of node code bytes.now))) out.new result }
{
    let class = class_of(code);
    let section = section_of(code);
    let language = language_of(code);
    let a = put_spaced(out, at, b"", node);
    let b = put_spaced(out, a, b"", class);
    let c = put_spaced(out, b, b"", section);
    let d = put_spaced(out, c, b"", language);
    let e = put_spaced(out, d, b"", code / STRUCK);
    let f = put_spaced(out, e, b"", bytes.len() as u32);
    put_spaced(out, f, b"", offset)
}

// A line of a book from its row and its bytes, from a place on, and the place behind it.
fn put_line(
    out: &mut [u8],
    at: usize,
    line: u32,
    node: u32,
    code: u32,
    offset: u32,
    bytes: &[u8],
) -> usize
    requires { (at + 89 + length bytes.now ≤ length out.old) × (length bytes.now < 4294967296) }
    ensures { Puts out.old at (line_shown line (with_offset offset (line_of node code bytes.now))) out.new result }
{
    let a = put_number(out, at, line);
    let b = put_fields(out, a, node, code, offset, bytes);
    let c = put_text(out, b, b" ");
    let d = put_text(out, c, bytes);
    put_text(out, d, b"\n")
}

// The lines of a book.
pub fn show_lines(book: Held, out: &mut [u8]) -> usize
    requires { shown_room book.lent.counts ≤ length out.old }
    ensures { Begins out.old
        (lines_shown 0 (book_of book.entry.lent.counts (buffers_of book.entry.lent)).lines)
        out.new result }
{
    let lent = book.lent;
    let mut end = 0;
    for i in 0..lent.counts.lines {
        let number = i as usize;
        let row = LINE_WIDTH * number;
        let bytes = line_bytes(lent.lines, lent.pool, number);
        end = put_line(
            out,
            end,
            i,
            lent.lines[row],
            lent.lines[row + 1],
            lent.lines[row + 4],
            bytes,
        );
    }
    end
}
