// A book that is lent as numbers and slices, the way a C program has it: its counts, six numbers, a number handed back, and what an edit answered.
// Definitions: specs/Calls.antt.
#![tactic(auto)]

ghost use Rattle.std.specs.Prelude.{◌≡◌};
ghost use Rattle.c_lending.specs.Calls.{Finishes, counts_put, lent_counts, number_told, value_left};

use book::Counts;
use numbers::{NO_ROOM, NODE_LIMIT};

// How many numbers the counts of a book are.
pub const COUNTS: usize = 6;

// More nodes than a book has.
const TOO_MANY_NODES: u32 = (NODE_LIMIT as u32) + 1;

// The counts that six numbers tell. Any other number of them tells counts that no book has.
pub fn counts_of(counts: &[u32]) -> Counts
    ensures { result ≡ lent_counts counts.now }
{
    if counts.len() != COUNTS {
        return Counts {
            kind: 0,
            nodes: TOO_MANY_NODES,
            names: 0,
            lines: 0,
            pool: 0,
            edits: 0,
        };
    }
    Counts {
        kind: counts[0],
        nodes: counts[1],
        names: counts[2],
        lines: counts[3],
        pool: counts[4],
        edits: counts[5],
    }
}

// Counts written, where six numbers are lent.
pub fn put_counts(counts: &mut [u32], c: Counts)
    ensures { counts.new ≡ counts_put counts.old c }
{
    if counts.len() != COUNTS {
        return;
    }
    counts[0] = c.kind;
    counts[1] = c.nodes;
    counts[2] = c.names;
    counts[3] = c.lines;
    counts[4] = c.pool;
    counts[5] = c.edits;
}

// A refusal, or a value into the first number of `out`.
pub fn answer(no: u32, value: u32, out: &mut [u32]) -> u32
    ensures { (result ≡ number_told no out.old) × (out.new ≡ value_left no value out.old) }
{
    if no != 0 {
        return no;
    }
    if out.len() == 0 {
        return NO_ROOM;
    }
    out[0] = value;
    0
}

// What an edit answered, with the counts of the book behind it.
pub fn finish(r: Result<Counts, u32>, counts: &mut [u32]) -> u32
    ensures { Finishes counts.old r result counts.new }
{
    match r {
        Err(no) => no,
        Ok(c) => {
            put_counts(counts, c);
            0
        }
    }
}
