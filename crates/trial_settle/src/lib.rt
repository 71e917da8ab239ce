// Settle, of the trial book. A refusal changes nothing. Definitions: trial/specs/Trial.antt (`settle_asked`), from document 01, 'The book'. It asks first
// whether the buffers hold a book (14); what it does then stands in `settling`. What it makes of the lines' offsets (02, request 02): trial/specs/Offsets.antt.
#![tactic(auto)]

ghost use Rattle.book.specs.Layout.{five};
ghost use Rattle.trial.specs.Changes.{Answers};
ghost use Rattle.trial.specs.Trial.{settle_asked};

use crate::settling::settle_lines;
use book::Counts;
use book::lent::Lent;
use book_check::is_book;
use numbers::NO_BOOK;

pub mod settling;

// The struck lines are dropped, and the rest is packed, each line with its offset (`SettleOffsets`).
pub fn settle(
    c: Counts,
    nodes: &[u32],
    names: &[u8],
    lines: &mut [u32],
    pool: &mut [u8],
    journal: &mut [u32],
) -> Result<Counts, u32>
    ensures { Answers c (five nodes.now names.now lines.old pool.old journal.old)
        (λ b w. settle_asked w)
        result (five nodes.now names.now lines.new pool.new journal.new) }
{
    if !is_book(Lent {
        counts: c,
        nodes,
        names,
        lines,
        pool,
        journal,
    }) {
        return Err(NO_BOOK);
    }
    Ok(settle_lines(c, nodes, names, lines, pool, journal))
}
