// The struck lines of a book in lent buffers dropped, and the rest packed. Definition: trial/specs/Trial.antt (`settled`), from document 01, 'The book'.
ghost use Rattle.std.specs.Prelude.{◌≡◌, true, ◌*◌, ◌≤◌, length};
ghost use Rattle.lists.specs.Each.{every};
ghost use Rattle.packing.specs.Tables.{things};
ghost use Rattle.book.specs.Edits.{stands};
ghost use Rattle.book.specs.Layout.{five, line_form, line_width};
ghost use Rattle.book.specs.View.{laid};
ghost use Rattle.trial.specs.Changes.{Makes, to};
ghost use Rattle.trial.specs.Trial.{settled};
ghost use Rattle.trial_settle.specs.Lines.{Packed, Settled};

use book::codes::is_struck;
use book::rows::put_line;
use book::{Counts, EDIT_WIDTH, LINE_WIDTH, counts_with};
use copying::move_down;
use packing::{clear_bytes, clear_numbers};

// Whether none of the first n lines is struck.
fn none_struck(lines: &[u32], pool: &[u8], n: usize) -> bool
    requires { line_width * n ≤ length lines.now }
    ensures { result ≡ every stands (things line_form n lines.now pool.now) }
{
    for i in 0..n {
        if is_struck(lines[LINE_WIDTH * i + 1]) {
            return false;
        }
    }
    true
}

// How many lines stand, and how many bytes they have.
#[derive(Clone, Copy)]
pub struct Standing {
    pub lines: u32,
    pub pool: u32,
}

// The lines that stand, of n lines, moved to the front, and zeros in the place of the others.
fn pack_standing(lines: &mut [u32], pool: &mut [u8], n: usize) -> Standing
    requires { Packed n lines.old pool.old }
    ensures { Settled n lines.old pool.old lines.new pool.new result }
{
    let mut read = 0;
    let mut j = 0;
    let mut written = 0;
    for i in 0..n {
        let here = LINE_WIDTH * i;
        let from = read;
        let node = lines[here];
        let code = lines[here + 1];
        let size = lines[here + 3] as usize;
        read += size;
        if is_struck(code) {
            continue;
        }
        let offset = lines[here + 4];
        put_line(lines, j, node, code, written as u32, size as u32, offset);
        move_down(pool, from, written, size);
        j += 1;
        written += size;
    }
    let left = LINE_WIDTH * j;
    let end = LINE_WIDTH * n;
    clear_numbers(&mut lines[left..end]);
    clear_bytes(&mut pool[written..read]);
    Standing {
        lines: j as u32,
        pool: written as u32,
    }
}

// A book settled: the struck lines are dropped, the rest is packed, the journal is emptied; "with none struck it changes nothing".
pub fn settle_lines(
    c: Counts,
    nodes: &[u32],
    names: &[u8],
    lines: &mut [u32],
    pool: &mut [u8],
    journal: &mut [u32],
) -> Counts
    requires { laid c (five nodes.now names.now lines.old pool.old journal.old) ≡ true }
    ensures { Makes c (five nodes.now names.now lines.old pool.old journal.old)
        (λ b w. to (settled w))
        (Ok result) (five nodes.now names.now lines.new pool.new journal.new) }
{
    let n = c.lines as usize;
    if none_struck(lines, pool, n) {
        return c;
    }
    let left = pack_standing(lines, pool, n);
    let edits = EDIT_WIDTH * (c.edits as usize);
    clear_numbers(&mut journal[..edits]);
    counts_with(c, left.lines, left.pool, 0)
}
