// Whether the journal of lent buffers is that of a book: its rows, and whether its edits, taken back from the latest on, fit the lines and leave none struck.
// Definitions: book/specs/Edits.antt. `journal_fits` is for a caller who knows that there are so many rows.
ghost use Rattle.std.specs.Prelude.{◌≡◌, cond, [], ◌+◌, ◌*◌, ◌/◌, ◌≤◌, ◌<◌, eqb, length, get_or};
ghost use Rattle.numbers.specs.Limits.{line_limit};
ghost use Rattle.packing.specs.Padding.{zeroed};
ghost use Rattle.lists.specs.Each.{every};
ghost use Rattle.packing.specs.Tables.{fine, packs, things};
ghost use Rattle.book.specs.Edits.{journal_fits, standing_again, stands};
ghost use Rattle.book.specs.Layout.{edit_form, edit_width, line_form, line_width, struck_mark};
ghost use Rattle.book.specs.Sanity.{edit_ok};

use book::codes::is_struck;
use book::{EDIT_WIDTH, LINE_WIDTH};
use numbers::LINE_LIMIT;
use packing::zero_numbers;

fn edit_rows(journal: &[u32], n: usize) -> bool
    requires { edit_width * n ≤ length journal.now }
    ensures { result ≡ fine edit_form edit_ok 0 n 0 journal.now [] }
{
    let mut at = 0;
    for i in 0..n {
        let what = journal[at];
        if what != 1 {
            if what != 2 {
                return false;
            }
        }
        at += EDIT_WIDTH;
    }
    zero_numbers(journal, at)
}

pub fn edits_packed(journal: &[u32], n: u32) -> bool
    ensures { result ≡ packs edit_form edit_ok n 0 journal.now [] }
{
    if journal.len() / EDIT_WIDTH < (n as usize) {
        return false;
    }
    edit_rows(journal, n as usize)
}

// Whether line i stands, where its mark counts no more once its strike is taken back.
fn stands_now(lines: &[u32], back: &[u8], i: usize) -> bool
    requires { (line_width * i + line_width ≤ length lines.now) × (i < length back.now) }
    ensures { result ≡ eqb (cond (eqb (get_or back.now i 0) 0) (get_or lines.now (line_width * i + 1) 0 / struck_mark) 0) 0 }
{
    if back[i] != 0 {
        return true;
    }
    !is_struck(lines[LINE_WIDTH * i + 1])
}

// Whether the first n lines stand, once the strikes in `back` are taken back.
fn all_stand(lines: &[u32], pool: &[u8], back: &[u8], n: usize) -> bool
    requires { (line_width * n ≤ length lines.now) × (n ≤ length back.now) }
    ensures { result ≡ every stands (standing_again back.now (things line_form n lines.now pool.now)) }
{
    for i in 0..n {
        if !stands_now(lines, back, i) {
            return false;
        }
    }
    true
}

// The edits taken back from the latest on: `back` marks the lines whose strike is taken back.
fn journal_fits_with(
    lines: &[u32],
    pool: &[u8],
    journal: &[u32],
    n: usize,
    e: usize,
    back: &mut [u8],
) -> bool
    requires { (line_width * n ≤ length lines.now) × (edit_width * e ≤ length journal.now) × (n ≤ length back.old) × (back.old ≡ zeroed back.old) }
    ensures { result ≡ journal_fits (things edit_form e journal.now []) (things line_form n lines.now pool.now) }
{
    let mut m = n;
    for s in (0..e).rev() {
        let what = journal[EDIT_WIDTH * s];
        let i = journal[EDIT_WIDTH * s + 1] as usize;
        if m <= i {
            return false;
        }
        let stands = stands_now(lines, back, i);
        if what == 1 {
            if m != i + 1 {
                return false;
            }
            if !stands {
                return false;
            }
            m = i;
            continue;
        }
        if stands {
            return false;
        }
        back[i] = 1;
    }
    all_stand(lines, pool, back, m)
}

pub fn journal_fits(lines: &[u32], pool: &[u8], journal: &[u32], n: usize, e: usize) -> bool
    requires { (line_width * n ≤ length lines.now) × (edit_width * e ≤ length journal.now) × (n ≤ line_limit) }
    ensures { result ≡ journal_fits (things edit_form e journal.now []) (things line_form n lines.now pool.now) }
{
    let mut back = [0u8; LINE_LIMIT];
    journal_fits_with(lines, pool, journal, n, e, &mut back)
}
