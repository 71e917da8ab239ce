// A line that verlist prints, at the start of a lent buffer: the counts'. Definitions: specs/Lines.antt, from document 01, 'Known points' (the program
// `verlist`), which has the symbols' lines too. A line asks for room: whoever prints for a user sees first that there is, and answers 8 where there is not.
#![tactic(auto)]

ghost use Rattle.std.specs.Prelude.{◌≤◌, length};
ghost use Rattle.book.specs.Lending.{view_of};
ghost use Rattle.book.specs.Layout.{five};
ghost use Rattle.book.specs.View.{view};
ghost use Rattle.printing.specs.Printing.{Begins};
ghost use Rattle.printing_symbols.specs.Lines.{counts_answered, counts_line, counts_room};

use book::lent::Lent;
use counting::{parent_count, version_count};
use printing::{put_number, put_refused_line, put_text};

pub mod symbols;

// The room that is asked for besides a name's bytes.
pub const TAIL_ROOM: usize = 48;

fn put_counts_line(out: &mut [u8], n: u32, p: u32) -> usize
    requires { counts_room ≤ length out.old }
    ensures { Begins out.old (counts_line (Ok n) (Ok p)) out.new result }
{
    let a = put_text(out, 0, b"nodes ");
    let b = put_number(out, a, n);
    let c = put_text(out, b, b" parents ");
    let d = put_number(out, c, p);
    put_text(out, d, b"\n")
}

// The version and parent counts of a book.
pub fn render_counts(book: Lent, out: &mut [u8]) -> usize
    requires { counts_room ≤ length out.old }
    ensures { Begins out.old
        (counts_answered (view_of book.entry))
        out.new result }
{
    match version_count(book) {
        Err(no) => put_refused_line(out, no.number()),
        Ok(n) => match parent_count(book) {
            Err(no) => put_refused_line(out, no.number()),
            Ok(p) => put_counts_line(out, n, p),
        },
    }
}
