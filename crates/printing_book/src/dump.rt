// What the buffers of a book hold, as the release desk shows it, put into a lent buffer. Definitions: specs/Shown.antt. `show_dump` is a leaf of `desk`:
// it asks for a book and for room.
ghost use Rattle.std.specs.Prelude.{◌≡◌, true, ◌++◌, ◌+◌, ◌*◌, ◌≤◌, length};
ghost use Rattle.book.specs.Lending.{buffers_of};
ghost use Rattle.book.specs.Layout.{five};
ghost use Rattle.book.specs.View.{holds};
ghost use Rattle.printing.specs.Printing.{Begins, Puts};
ghost use Rattle.printing_book.specs.Shown.{buffer_shown, dump_shown, numbers_shown, shown_room};

use book::{Counts, EDIT_WIDTH, LINE_WIDTH, NODE_WIDTH};
use book_check::Held;
use printing::{put_spaced, put_text};

// Numbers, a blank before each, from a place on, and the place behind them.
fn put_numbers(out: &mut [u8], at: usize, l: &[u32]) -> usize
    requires { at + 11 * length l.now ≤ length out.old }
    ensures { Puts out.old at (numbers_shown l.now) out.new result }
{
    let mut end = at;
    for n in l {
        end = put_spaced(out, end, b"", *n);
    }
    end
}

// Bytes as numbers in the same way. A byte has three digits at most, but room for ten is asked as for any number.
fn put_byte_numbers(out: &mut [u8], at: usize, l: &[u8]) -> usize
    requires { at + 4 * length l.now + 8 ≤ length out.old }
    ensures { Puts out.old at (numbers_shown l.now) out.new result }
{
    let mut end = at;
    for n in l {
        end = put_spaced(out, end, b"", u32::from(*n));
    }
    end
}

// The numbers of a buffer as a line, from a place on, and the place behind it.
fn put_buffer(out: &mut [u8], at: usize, word: &[u8], l: &[u32]) -> usize
    requires { at + length word.now + 11 * length l.now + 1 ≤ length out.old }
    ensures { Puts out.old at (buffer_shown word.now l.now) out.new result }
{
    let a = put_text(out, at, word);
    let b = put_numbers(out, a, l);
    put_text(out, b, b"\n")
}

// The bytes of a buffer in the same way.
fn put_byte_buffer(out: &mut [u8], at: usize, word: &[u8], l: &[u8]) -> usize
    requires { at + length word.now + 4 * length l.now + 9 ≤ length out.old }
    ensures { Puts out.old at (buffer_shown word.now l.now) out.new result }
{
    let a = put_text(out, at, word);
    let b = put_byte_numbers(out, a, l);
    put_text(out, b, b"\n")
}

// A buffer of numbers and behind it one of bytes, each as a line, from a place on, and the place behind them.
fn put_pair(out: &mut [u8], at: usize, word: &[u8], l: &[u32], second: &[u8], bytes: &[u8]) -> usize
    requires { at + (length word.now + 11 * length l.now + 1) + (length second.now + 4 * length bytes.now + 9) ≤ length out.old }
    ensures { Puts out.old at (buffer_shown word.now l.now ++ buffer_shown second.now bytes.now) out.new result }
{
    let end = put_buffer(out, at, word, l);
    put_byte_buffer(out, end, second, bytes)
}

// What the buffers of a book hold, each a parameter: that bytes are below 256 is known of those, and not of a struct's fields.
fn put_dump(
    c: Counts,
    nodes: &[u32],
    names: &[u8],
    lines: &[u32],
    pool: &[u8],
    journal: &[u32],
    out: &mut [u8],
) -> usize
    requires { (shown_room c ≤ length out.old) × (holds c (five nodes.now names.now lines.now pool.now journal.now) ≡ true) }
    ensures { Begins out.old
        (dump_shown c (five nodes.now names.now lines.now pool.now journal.now)) out.new result }
{
    let a = put_pair(
        out,
        0,
        b"nodes",
        &nodes[..NODE_WIDTH * (c.nodes as usize)],
        b"names",
        &names[..c.names as usize],
    );
    let b = put_pair(
        out,
        a,
        b"lines",
        &lines[..LINE_WIDTH * (c.lines as usize)],
        b"pool",
        &pool[..c.pool as usize],
    );
    let edits = &journal[..EDIT_WIDTH * (c.edits as usize)];
    put_buffer(out, b, b"journal", edits)
}

// The same of a lent book.
pub fn show_dump(book: Held, out: &mut [u8]) -> usize
    requires { shown_room book.lent.counts ≤ length out.old }
    ensures { Begins out.old
        (dump_shown book.entry.lent.counts (buffers_of book.entry.lent)) out.new result }
{
    let lent = book.lent;
    put_dump(
        lent.counts,
        lent.nodes,
        lent.names,
        lent.lines,
        lent.pool,
        lent.journal,
        out,
    )
}
