// Whether lent buffers and counts hold a book: the question behind refusal 14, asked first by every function that takes a book.
#![tactic(auto)]

ghost use Rattle.std.specs.Prelude.{◌≡◌, true, false, IfOk, IfErr};
ghost use Rattle.numbers.specs.declared.Refusal.TheVariants.{NoBook};
ghost use Rattle.book.specs.Lending.{buffers_of, holds_book};
ghost use Rattle.book.specs.Sanity.{kind_good};
ghost use Rattle.book.specs.View.{book_of, laid, within_limits};

use crate::journal::{edits_packed, journal_fits};
use crate::lines::{has_star, lines_packed};
use crate::nodes::{nodes_good, nodes_packed};
use book::lent::Lent;
use book::{Counts, EXPORT, REGULAR, RUST, frame_of};
use numbers::{EDIT_LIMIT, LINE_LIMIT, NODE_LIMIT, POOL_LIMIT, Refusal};

pub mod journal;
pub mod lines;
pub mod nodes;

fn is_within_limits(c: Counts) -> bool
    ensures { result ≡ within_limits c }
{
    if NODE_LIMIT < (c.nodes as usize) {
        return false;
    }
    if LINE_LIMIT < (c.lines as usize) {
        return false;
    }
    if POOL_LIMIT < (c.pool as usize) {
        return false;
    }
    (c.edits as usize) <= EDIT_LIMIT
}

// Whether the nodes, edits and lines are those of a book of its kind.
fn is_kind_good(book: Lent) -> bool
    requires { laid book.counts (buffers_of book) ≡ true }
    ensures { result ≡ kind_good (book_of book.entry.counts (buffers_of book.entry)) }
{
    let c = book.counts;
    let kind = c.kind;
    if kind == REGULAR {
        return true;
    }
    if c.nodes != 1 {
        return false;
    }
    if kind == RUST {
        if c.edits != 0 {
            return false;
        }
        return has_star(book.lines, book.pool, c.lines as usize);
    }
    kind == EXPORT
}

fn is_laid(book: Lent) -> bool
    ensures { result ≡ laid book.entry.counts (buffers_of book.entry) }
{
    let c = book.counts;
    if !is_within_limits(c) {
        return false;
    }
    if !nodes_packed(book.nodes, book.names, c.nodes, c.names) {
        return false;
    }
    if !lines_packed(frame_of(c), book.lines, book.pool, c.lines, c.pool) {
        return false;
    }
    edits_packed(book.journal, c.edits)
}

pub fn is_book(book: Lent) -> bool
    ensures { result ≡ holds_book book.entry }
{
    if !is_laid(book) {
        return false;
    }
    let c = book.counts;
    if !nodes_good(book.nodes, book.names, c.nodes as usize, c.names as usize) {
        return false;
    }
    if !is_kind_good(book) {
        return false;
    }
    journal_fits(
        book.lines,
        book.pool,
        book.journal,
        c.lines as usize,
        c.edits as usize,
    )
}

// A lent book that holds one.
#[derive(Clone, Copy)]
pub struct Held<'a> {
    pub lent: Lent<'a>,
    ghost holds: { holds_book lent ≡ true },
}

impl<'a> Held<'a> {
    // A lent book as one that holds it, or 14.
    pub fn of(lent: Lent<'a>) -> Result<Held<'a>, Refusal>
        ensures ok { IfOk result (λ h. h.lent ≡ lent.entry) }
        ensures err { IfErr result (λ e. (e ≡ NoBook) × (holds_book lent.entry ≡ false)) }
    {
        if !is_book(lent) {
            return Err(Refusal::NoBook);
        }
        Ok(Held { lent })
    }
}
