// The edits that correct a lent book, whose counts are six numbers: the refusal or 0. Where an edit is done its counts are written; where it is refused
// nothing is. Definitions: c_lending/specs/Calls.antt.
ghost use Rattle.book.specs.Layout.{five};
ghost use Rattle.trial.specs.Trial.{settle_asked, strike_asked, undo_asked};
ghost use Rattle.c_lending.specs.Calls.{Edits};

use c_lending::{counts_of, finish};

// A line that stands is struck.
pub fn strike(
    counts: &mut [u32],
    nodes: &[u32],
    names: &[u8],
    lines: &mut [u32],
    pool: &[u8],
    journal: &mut [u32],
    line: u32,
) -> u32
    ensures { Edits counts.old
        (five nodes.now names.now lines.old pool.now journal.old)
        (λ b w. strike_asked b w line)
        result counts.new (five nodes.now names.now lines.new pool.now journal.new) }
{
    let c = counts_of(counts);
    let r = trial_strike::strike(c, nodes, names, lines, pool, journal, line);
    finish(r, counts)
}

// The latest edit is taken back.
pub fn undo(
    counts: &mut [u32],
    nodes: &[u32],
    names: &[u8],
    lines: &mut [u32],
    pool: &mut [u8],
    journal: &mut [u32],
) -> u32
    ensures { Edits counts.old
        (five nodes.now names.now lines.old pool.old journal.old)
        (λ b w. undo_asked w)
        result counts.new (five nodes.now names.now lines.new pool.new journal.new) }
{
    let c = counts_of(counts);
    let r = trial_undo::undo_latest(c, nodes, names, lines, pool, journal);
    finish(r, counts)
}

// The struck lines are dropped, and the rest is packed.
pub fn settle(
    counts: &mut [u32],
    nodes: &[u32],
    names: &[u8],
    lines: &mut [u32],
    pool: &mut [u8],
    journal: &mut [u32],
) -> u32
    ensures { Edits counts.old
        (five nodes.now names.now lines.old pool.old journal.old)
        (λ b w. settle_asked w)
        result counts.new (five nodes.now names.now lines.new pool.new journal.new) }
{
    let c = counts_of(counts);
    let r = trial_settle::settle(c, nodes, names, lines, pool, journal);
    finish(r, counts)
}
