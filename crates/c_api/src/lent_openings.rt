// A text opened into lent buffers, with the counts, six numbers, among them. Where the counts are not six numbers all is cleared and refused. Definitions:
// c_lending/specs/Calls.antt.
ghost use Rattle.std.specs.Prelude.{◌≡◌, ◌+◌, ◌*◌, ◌≤◌, cond};
ghost use Rattle.numbers.specs.Limits.{over, script_limit};
ghost use Rattle.numbers.specs.Refusals.{no_room, too_long};
ghost use Rattle.packing.specs.Padding.{zeroed};
ghost use Rattle.book.specs.Layout.{five};
ghost use Rattle.book_opening.specs.Opening.{cleared};
ghost use Rattle.c_lending.specs.Calls.{Opens, counts_put};

use book_opening::{How, Opened};
use c_lending::{COUNTS, put_counts};
use numbers::{NO_ROOM, SCRIPT_LIMIT, TOO_LONG};
use packing::{clear_bytes, clear_numbers};

// All buffers cleared, as a refused opening leaves them.
fn clear_all(
    counts: &mut [u32],
    nodes: &mut [u32],
    names: &mut [u8],
    lines: &mut [u32],
    pool: &mut [u8],
    journal: &mut [u32],
)
    ensures { (counts.new ≡ zeroed counts.old)
        × (five nodes.new names.new lines.new pool.new journal.new
        ≡ cleared (five nodes.old names.old lines.old pool.old journal.old)) }
{
    clear_numbers(counts);
    clear_numbers(nodes);
    clear_bytes(names);
    clear_numbers(lines);
    clear_bytes(pool);
    clear_numbers(journal);
}

// Why counts that are not six numbers are refused: a text that is too long comes first.
fn without_counts(text: &[u8]) -> u64
    ensures { result ≡ cond (over script_limit text.now) too_long no_room }
{
    if SCRIPT_LIMIT < text.len() {
        return TOO_LONG as u64;
    }
    NO_ROOM as u64
}

// What an opening answered, with its counts written.
fn told(r: Opened, counts: &mut [u32]) -> u64
    requires { r.place ≤ script_limit }
    ensures { (result ≡ r.refusal + 256 * r.place) × (counts.new ≡ counts_put counts.old r.counts) }
{
    put_counts(counts, r.counts);
    (r.refusal as u64) + 256 * (r.place as u64)
}

// A text opened: a version script, or an export list.
pub fn open_lent(
    how: How,
    text: &[u8],
    counts: &mut [u32],
    nodes: &mut [u32],
    names: &mut [u8],
    lines: &mut [u32],
    pool: &mut [u8],
    journal: &mut [u32],
) -> u64
    ensures { Opens how counts.old
        (five nodes.old names.old lines.old pool.old journal.old)
        text.now result counts.new
        (five nodes.new names.new lines.new pool.new journal.new) }
{
    if counts.len() != COUNTS {
        clear_all(counts, nodes, names, lines, pool, journal);
        return without_counts(text);
    }
    told(
        book_opening::open(how, text, nodes, names, lines, pool, journal),
        counts,
    )
}
