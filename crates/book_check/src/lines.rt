// Whether the lines of lent buffers are those of a book of its kind: their rows, and each line. Definitions: book/specs/Sanity.antt. `has_star` is
// for a caller who knows that there are so many rows.
ghost use Rattle.std.specs.Prelude.{◌≡◌, [], ◌*◌, ◌≤◌, length};
ghost use Rattle.packing.specs.Tables.{fine, packs, things};
ghost use Rattle.book.specs.Books.{with_offset};
ghost use Rattle.book.specs.Layout.{line_form, line_of, line_width};
ghost use Rattle.book.specs.Sanity.{bare_star, content_good, glob_stands, in_range, kind_allows, line_ok, some_star};

use book::codes::{class_of, language_of, section_of};
use book::editions::edition_of;
use book::{EXPORT, Frame, LINE_WIDTH, RUST};
use numbers::{
    ALL_CLASS, EXACT_CLASS, Edition, GENERAL, GLOBAL, LOCAL, NONSTAR_CLASS, SCRIPT_LIMIT,
    STAR_CLASS, TOKEN_LIMIT,
};
use packing::{zero_bytes, zero_numbers};
use pattern_check::pattern_refusal;
use storing::runs::is_as_stored;

fn glob_stands(edition: Edition, glob: &[u8]) -> bool
    ensures { result ≡ glob_stands edition glob.now }
{
    pattern_refusal(edition, glob, false).is_ok() && is_as_stored(edition, glob)
}

// Whether numbers and bytes are a line in range, in a book with that many nodes.
fn is_in_range(nodes: u32, node: u32, code: u32, bytes: &[u8]) -> bool
    ensures { result ≡ in_range nodes (line_of node code bytes.now) }
{
    let size = bytes.len();
    if nodes <= node {
        return false;
    }
    if 64 <= code {
        return false;
    }
    if TOKEN_LIMIT < size {
        return false;
    }
    let class = class_of(code);
    if class < ALL_CLASS {
        return true;
    }
    if class == ALL_CLASS {
        return size == 0;
    }
    false
}

// Whether a book of that kind has a line with that code.
fn kind_allows(kind: u32, code: u32) -> bool
    ensures { result ≡ kind_allows kind (line_of 0 code []) }
{
    let section = section_of(code);
    if kind == RUST {
        if section != GLOBAL {
            return true;
        }
        if class_of(code) != EXACT_CLASS {
            return false;
        }
        return language_of(code) == GENERAL;
    }
    if kind == EXPORT {
        return section == GLOBAL;
    }
    true
}

fn content_good(edition: Edition, code: u32, bytes: &[u8]) -> bool
    ensures { result ≡ content_good edition (line_of 0 code bytes.now) }
{
    let class = class_of(code);
    if class == NONSTAR_CLASS {
        return glob_stands(edition, bytes);
    }
    if class == STAR_CLASS {
        return glob_stands(edition, bytes);
    }
    true
}

fn line_good(frame: Frame, node: u32, code: u32, offset: u32, bytes: &[u8]) -> bool
    ensures { result ≡ line_ok frame (with_offset offset (line_of node code bytes.now)) }
{
    if !is_in_range(frame.nodes, node, code, bytes) {
        return false;
    }
    if SCRIPT_LIMIT < (offset as usize) {
        return false;
    }
    if !kind_allows(frame.kind, code) {
        return false;
    }
    content_good(edition_of(frame), code, bytes)
}

// Whether n rows of lines are packed up to the byte p of the pool, each a line of such a book.
fn line_rows(frame: Frame, lines: &[u32], pool: &[u8], n: usize, p: usize) -> bool
    requires { (line_width * n ≤ length lines.now) × (p ≤ length pool.now) }
    ensures { result ≡ fine line_form (line_ok frame) p n 0 lines.now pool.now }
{
    let mut at = 0;
    let mut o = 0;
    for i in 0..n {
        if (lines[at + 2] as usize) != o {
            return false;
        }
        let size = lines[at + 3] as usize;
        if p - o < size {
            return false;
        }
        let end = o + size;
        if !line_good(
            frame,
            lines[at],
            lines[at + 1],
            lines[at + 4],
            &pool[o..end],
        ) {
            return false;
        }
        o = end;
        at += LINE_WIDTH;
    }
    if o != p {
        return false;
    }
    zero_numbers(lines, at)
}

pub fn lines_packed(frame: Frame, lines: &[u32], pool: &[u8], n: u32, p: u32) -> bool
    ensures { result ≡ packs line_form (line_ok frame) n p lines.now pool.now }
{
    if pool.len() < (p as usize) {
        return false;
    }
    if lines.len() / LINE_WIDTH < (n as usize) {
        return false;
    }
    if !zero_bytes(pool, p as usize) {
        return false;
    }
    line_rows(frame, lines, pool, n as usize, p as usize)
}

// Whether a line with that code is a general local All line.
pub fn is_bare_star(code: u32) -> bool
    ensures { result ≡ bare_star (line_of 0 code []) }
{
    if class_of(code) != ALL_CLASS {
        return false;
    }
    if section_of(code) != LOCAL {
        return false;
    }
    language_of(code) == GENERAL
}

// Whether one of n lines is a general `*` among the locals.
pub fn has_star(lines: &[u32], pool: &[u8], n: usize) -> bool
    requires { line_width * n ≤ length lines.now }
    ensures { result ≡ some_star (things line_form n lines.now pool.now) }
{
    let mut at = 0;
    for i in 0..n {
        if is_bare_star(lines[at + 1]) {
            return true;
        }
        at += LINE_WIDTH;
    }
    false
}
