// The latest edit of a book in lent buffers taken back. Definitions: specs/Latest.antt, of the buffers; what it makes of the book is trial/specs/Trial.antt
// (`undo_asked`), from document 01, 'The book', and is shown where it is asked.
ghost use Rattle.std.specs.Prelude.{◌≡◌, ◌+◌, ◌*◌, ◌≤◌, length};
ghost use Rattle.book.specs.Layout.{line_width, struck_mark};
ghost use Rattle.trial.specs.Clearing.{emptied};
ghost use Rattle.trial_undo.specs.Latest.{Undoable, code_told, counts_back, journal_back, lines_back, pool_back, row_back, start_of, unstruck};

use book::{Counts, EDIT_WIDTH, LINE_WIDTH, STRUCK, counts_with};
use copying::put_two;
use packing::{clear_bytes, clear_numbers};
use trial::ADD;

// An add taken back: its row and its bytes are zero again. Where its bytes started is answered.
fn undo_add(lines: &mut [u32], pool: &mut [u8], line: usize, end: usize) -> u32
    requires { (line_width * line + line_width ≤ length lines.old) × (start_of lines.old line ≤ end) × (end ≤ length pool.old) }
    ensures { (result ≡ start_of lines.old line)
        × (lines.new ≡ row_back lines.old line)
        × (pool.new ≡ emptied pool.old result end) }
{
    let at = LINE_WIDTH * line;
    let start = lines[at + 2];
    let from = start as usize;
    clear_bytes(&mut pool[from..end]);
    clear_numbers(&mut lines[at..at + LINE_WIDTH]);
    start
}

// A strike taken back: the line stands again.
fn undo_strike(lines: &mut [u32], line: usize)
    requires { (line_width * line + line_width ≤ length lines.old) × (struck_mark ≤ code_told lines.old line) }
    ensures { lines.new ≡ unstruck lines.old line }
{
    let at = LINE_WIDTH * line + 1;
    lines[at] = lines[at] - STRUCK;
}

// The latest edit taken back, of a book that has one; the counts behind it are answered.
pub fn take_back_latest(
    c: Counts,
    lines: &mut [u32],
    pool: &mut [u8],
    journal: &mut [u32],
) -> Counts
    requires { Undoable c lines.old pool.old journal.old }
    ensures { (result ≡ counts_back c lines.old journal.old)
        × (lines.new ≡ lines_back c lines.old journal.old)
        × (pool.new ≡ pool_back c lines.old pool.old journal.old)
        × (journal.new ≡ journal_back c journal.old) }
{
    let at = EDIT_WIDTH * ((c.edits - 1) as usize);
    let what = journal[at];
    let line = journal[at + 1] as usize;
    put_two(journal, at, 0, 0);
    if what == ADD {
        let start = undo_add(lines, pool, line, c.pool as usize);
        return counts_with(c, c.lines - 1, start, c.edits - 1);
    }
    undo_strike(lines, line);
    counts_with(c, c.lines, c.pool, c.edits - 1)
}
