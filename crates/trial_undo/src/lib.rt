// "undo takes back the latest edit not yet undone": `undo`, to which the counts are lent, over a core that takes them by value. Whoever holds the counts as a
// value goes through it by `undo_latest`. A refusal changes nothing. Definitions: trial/specs/Trial.antt, from document 01, 'The book'. It is asked first
// whether the buffers hold a book (14); what is done then stands in `taking_back`. What it makes of the lines' offsets (02, request 02):
// trial/specs/Offsets.antt.
#![tactic(auto)]

ghost use Rattle.book.specs.Layout.{five};
ghost use Rattle.trial.specs.Changes.{Answers, Updates};
ghost use Rattle.trial.specs.Trial.{undo_asked};

use crate::taking_back::take_back_latest;
use book::Counts;
use book::lent::Lent;
use book_check::is_book;
use numbers::{NO_BOOK, NOTHING_TO_UNDO};

pub mod taking_back;

// What undo makes of the counts, and the number that it answers.
#[derive(Clone, Copy)]
struct Undone {
    counts: Counts,
    number: u32,
}

// The latest edit taken back, of a book whose counts are passed by value.
fn undo_by_value(
    c: Counts,
    nodes: &[u32],
    names: &[u8],
    lines: &mut [u32],
    pool: &mut [u8],
    journal: &mut [u32],
) -> Undone
    ensures { Updates c (five nodes.now names.now lines.old pool.old journal.old)
        (λ b w. undo_asked w)
        result.number result.counts (five nodes.now names.now lines.new pool.new journal.new) }
{
    if !is_book(Lent {
        counts: c,
        nodes,
        names,
        lines,
        pool,
        journal,
    }) {
        return Undone {
            counts: c,
            number: NO_BOOK,
        };
    }
    if c.edits == 0 {
        return Undone {
            counts: c,
            number: NOTHING_TO_UNDO,
        };
    }
    let counts = take_back_latest(c, lines, pool, journal);
    Undone { counts, number: 0 }
}

// "The book's counts are lent to undo, which updates them": 0, or the number that says no. The lines that are left keep their offsets (`UndoOffsets`).
pub fn undo(
    counts: &mut Counts,
    nodes: &[u32],
    names: &[u8],
    lines: &mut [u32],
    pool: &mut [u8],
    journal: &mut [u32],
) -> u32
    ensures { Updates counts.old
        (five nodes.now names.now lines.old pool.old journal.old)
        (λ b w. undo_asked w)
        result counts.new (five nodes.now names.now lines.new pool.new journal.new) }
{
    let c = *counts;
    let u = undo_by_value(c, nodes, names, lines, pool, journal);
    *counts = u.counts;
    u.number
}

// Counts that are a value are lent to `undo`, for the one call.
fn undo_lent(
    c: Counts,
    nodes: &[u32],
    names: &[u8],
    lines: &mut [u32],
    pool: &mut [u8],
    journal: &mut [u32],
) -> Undone
    ensures { Updates c (five nodes.now names.now lines.old pool.old journal.old)
        (λ b w. undo_asked w)
        result.number result.counts (five nodes.now names.now lines.new pool.new journal.new) }
{
    let mut counts = c;
    let number = undo(&mut counts, nodes, names, lines, pool, journal);
    Undone { counts, number }
}

// The latest edit taken back, for callers whose counts are a value: the counts behind it, or the number that says no.
pub fn undo_latest(
    c: Counts,
    nodes: &[u32],
    names: &[u8],
    lines: &mut [u32],
    pool: &mut [u8],
    journal: &mut [u32],
) -> Result<Counts, u32>
    ensures { Answers c (five nodes.now names.now lines.old pool.old journal.old)
        (λ b w. undo_asked w)
        result (five nodes.now names.now lines.new pool.new journal.new) }
{
    let u = undo_lent(c, nodes, names, lines, pool, journal);
    if u.number != 0 {
        return Err(u.number);
    }
    let counts = u.counts;
    Ok(counts)
}
