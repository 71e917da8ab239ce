// The line that decides a name, and what is told of it. Definitions: specs/Why.antt. These functions are for callers who know that the buffers hold a book.
ghost use Rattle.std.specs.Prelude.{◌≡◌, true, [], ◌+◌, ◌*◌, ◌≤◌, ◌<◌, length, get_or};
ghost use Rattle.numbers.specs.Limits.{line_limit, name_limit, node_limit};
ghost use Rattle.packing.specs.Tables.{packs, things};
ghost use Rattle.book.specs.Books.{with_offset};
ghost use Rattle.book.specs.Layout.{frame_of, line_form, line_of, line_width};
ghost use Rattle.book.specs.Sanity.{bare_star, line_ok};
ghost use Rattle.ranking.specs.Matching.{name_of};
ghost use Rattle.ranking.specs.Walk.{deciding_among, first_line};
ghost use Rattle.reasons.specs.Why.{line_told, reason, rust_deciding};

use crate::{Reason, Why};
use book::codes::{class_of, language_of, section_of};
use book::{Counts, LINE_WIDTH, frame_of};
use book_check::lines::is_bare_star;
use lookups::listing::first_listed;
use ranking::finding::find_match;

// What is told of line i, from its row.
fn line_reason(lines: &[u32], i: usize) -> Reason
    requires { (line_width * i + line_width ≤ length lines.now) × (i < line_limit) }
    ensures { result ≡ reason i (with_offset (get_or lines.now (line_width * i + 4) 0)
        (line_of (get_or lines.now (line_width * i) 0) (get_or lines.now (line_width * i + 1) 0) [])) }
{
    let row = LINE_WIDTH * i;
    let code = lines[row + 1];
    Reason {
        line: i as u32,
        class: class_of(code),
        node: lines[row],
        section: section_of(code),
        language: language_of(code),
        offset: lines[row + 4],
    }
}

// The number of the first general `*` among the locals.
fn first_star(c: Counts, lines: &[u32], pool: &[u8]) -> Option<usize>
    requires { packs line_form (line_ok (frame_of c)) c.lines c.pool lines.now pool.now ≡ true }
    ensures { result ≡ first_line bare_star 0 (things line_form c.lines lines.now pool.now) }
{
    for i in 0..c.lines as usize {
        if is_bare_star(lines[LINE_WIDTH * i + 1]) {
            return Some(i);
        }
    }
    None
}

// The line that decides a name in a book of the Rust kind.
pub fn rust_why(c: Counts, lines: &[u32], pool: &[u8], name: &[u8]) -> Why
    requires { (packs line_form (line_ok (frame_of c)) c.lines c.pool lines.now pool.now ≡ true) × (c.lines ≤ line_limit) }
    ensures { result ≡ line_told (things line_form c.lines lines.now pool.now)
        (rust_deciding name.now (things line_form c.lines lines.now pool.now)) }
{
    match first_listed(c, lines, pool, name) {
        Some(i) => Why::Line(line_reason(lines, i)),
        None => match first_star(c, lines, pool) {
            Some(i) => Why::Line(line_reason(lines, i)),
            None => Why::NoLine,
        },
    }
}

// The line that decides a name by 01's ranking.
pub fn ranked_why(c: Counts, lines: &[u32], pool: &[u8], raw: &[u8], demangled: &[u8]) -> Why
    requires { (packs line_form (line_ok (frame_of c)) c.lines c.pool lines.now pool.now ≡ true) × (c.nodes ≤ node_limit)
        × (length raw.now ≤ name_limit) × (length demangled.now ≤ name_limit) × (c.lines ≤ line_limit) }
    ensures { result ≡ line_told (things line_form c.lines lines.now pool.now)
        (deciding_among (frame_of c) (name_of raw.now demangled.now)
        (things line_form c.lines lines.now pool.now)) }
{
    match find_match(
        frame_of(c),
        lines,
        pool,
        c.lines as usize,
        c.pool as usize,
        raw,
        demangled,
    ) {
        None => Why::NoLine,
        Some(i) => Why::Line(line_reason(lines, i)),
    }
}
