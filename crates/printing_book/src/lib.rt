// What the release desk shows of a book, put into a lent buffer: how much room it takes, and the counts. Definitions: specs/Shown.antt, which has the lines and
// the dump too. These functions are `desk`'s own leaves: they ask for room.
#![tactic(auto)]

ghost use Rattle.std.specs.Prelude.{◌≡◌, ◌≤◌, length};
ghost use Rattle.printing.specs.Printing.{Begins};
ghost use Rattle.printing_book.specs.Shown.{counts_shown, shown_room};

use book::Counts;
use printing::{put_spaced, put_text};

pub mod dump;
pub mod lines;

// A room for whatever is shown of a book with these counts.
pub fn shown_room(c: Counts) -> usize
    ensures { result ≡ shown_room c }
{
    let rows = 33 * (c.nodes as usize) + 89 * (c.lines as usize) + 22 * (c.edits as usize);
    128 + (rows + 4 * (c.names as usize) + 4 * (c.pool as usize))
}

// The counts of a book.
pub fn show_counts(c: Counts, out: &mut [u8]) -> usize
    requires { shown_room c ≤ length out.old }
    ensures { Begins out.old (counts_shown c) out.new result }
{
    let a = put_spaced(out, 0, b"kind", c.kind);
    let b = put_spaced(out, a, b" nodes", c.nodes);
    let d = put_spaced(out, b, b" names", c.names);
    let e = put_spaced(out, d, b" lines", c.lines);
    let f = put_spaced(out, e, b" pool", c.pool);
    let g = put_spaced(out, f, b" edits", c.edits);
    put_text(out, g, b"\n")
}
