// Replays a sample of what the Rust reads (data/cases.txt) against reading_events, and prints the line of each text that is read differently, and how
// many are read the same and how many are not. How the sample was made is said in docs/DIFFERENCES.md. One text a line, fields split by a blank, bytes as
// hex, no bytes as `-`, the source as the number that reading_events takes:
//     R source text 0          refused
//     R source text 1 words    accepted
// The words are the nodes twice, first with their globals and then with their locals. Sections, languages and classes are digits, and no blank is between
// digits. Node 0 has neither the first word nor the last:
//     N name                             a node
//     E section language                 an extern block
//     L section language class, bytes    a line, the bytes as they are stored
//     C                                  the end of the extern block
//     P parent                           the end of the node, and its parent's text
#![tactic(auto)]

ghost use Rattle.std.specs.Prelude.{◌≡◌, ◌≤◌, length};

use glob_match::exports::glob_match_store;
use meanings::front;
use numbers::{BAD_EXTERN, UNREADABLE};
use reading_rows::reading_events;
use replay::{FIELD, byte_or_zero, digit, print_counts, read_cases, read_field, replay_lines};
use std::io;

// The kinds of the rows.
const NODE: u64 = 1;

const BODY: u64 = 2;

const SECTION: u64 = 3;

const EXTERN: u64 = 4;

const CLOSED: u64 = 5;

const LINE: u64 = 6;

const PARENT: u64 = 7;

// What reading_events takes for no source.
const NO_SOURCE: u32 = 255;

// Room for the rows of a field's text: each event but two takes a byte of it.
const ROOM: usize = 1290;

// The place behind the byte b, where it stands at this place of the line. Each `past_` below answers the same for what it is named after.
fn past(line: &[u8], at: usize, b: u8) -> Option<usize> {
    match line.get(at) {
        Some(c) if *c == b => Some(at + 1),
        _ => None,
    }
}

fn past_digit(line: &[u8], at: usize, n: u64) -> Option<usize> {
    if n < 10 {
        return past(line, at, b'0' + (n as u8));
    }
    None
}

fn hex(n: u8) -> u8
    requires { n ≤ 15 }
{
    match n {
        0..=9 => b'0' + n,
        _ => b'a' + (n - 10),
    }
}

fn past_byte(line: &[u8], at: usize, b: u8) -> Option<usize> {
    let low = past(line, at, hex(b / 16))?;
    past(line, low, hex(b % 16))
}

// A blank, and the bytes behind it.
fn past_field(line: &[u8], from: usize, bytes: &[u8]) -> Option<usize> {
    let at = past(line, from, b' ')?;
    if bytes.is_empty() {
        return past(line, at, b'-');
    }
    bytes.iter().try_fold(at, |at, b| past_byte(line, at, *b))
}

// A blank, and the letter that a word begins with.
fn past_letter(line: &[u8], from: usize, letter: u8) -> Option<usize> {
    let at = past(line, from, b' ')?;
    past(line, at, letter)
}

// A token's class, and the bytes that are stored of it.
fn past_token(line: &[u8], from: usize, token: &[u8]) -> Option<usize> {
    let mut bytes = [0u8; FIELD];
    let told = glob_match_store(token, &mut bytes);
    if told % 256 != 0 {
        return None;
    }
    let n = (told / 2048) as usize;
    let at = past_digit(line, from, told / 256 % 8)?;
    past_field(line, at, front(&bytes, n))
}

// A part of the text, no bytes where it does not lie in it.
fn part(text: &[u8], start: u64, len: u64) -> &[u8] {
    match text.get(start as usize..) {
        Some(rest) => rest.get(..len as usize).unwrap_or(&text[..0]),
        None => &text[..0],
    }
}

// An event and its numbers, as reading_events tells them.
#[derive(Clone, Copy)]
struct Row {
    kind: u64,
    a: u64,
    b: u64,
    c: u64,
    d: u64,
}

fn row_of(numbers: &[u64]) -> Row
    requires { length numbers.now ≡ 5 }
{
    Row {
        kind: numbers[0],
        a: numbers[1],
        b: numbers[2],
        c: numbers[3],
        d: numbers[4],
    }
}

fn past_extern(line: &[u8], from: usize, row: Row) -> Option<usize> {
    let at = past_digit(line, past_letter(line, from, b'E')?, row.a)?;
    past_digit(line, at, row.b)
}

fn past_line(line: &[u8], from: usize, text: &[u8], row: Row) -> Option<usize> {
    let at = past_digit(line, past_letter(line, from, b'L')?, row.a)?;
    past_token(line, past_digit(line, at, row.b)?, part(text, row.c, row.d))
}

fn past_matcher(line: &[u8], from: usize, text: &[u8], row: Row) -> Option<usize> {
    match row.kind {
        EXTERN => past_extern(line, from, row),
        CLOSED => past_letter(line, from, b'C'),
        LINE => past_line(line, from, text, row),
        _ => Some(from),
    }
}

// What a row tells: of a matcher, only where it is wanted.
fn past_row(line: &[u8], from: usize, text: &[u8], row: Row, wanted: bool) -> Option<usize> {
    match row.kind {
        NODE => past_field(
            line,
            past_letter(line, from, b'N')?,
            part(text, row.a, row.b),
        ),
        PARENT => past_field(
            line,
            past_letter(line, from, b'P')?,
            part(text, row.a, row.b),
        ),
        _ if wanted => past_matcher(line, from, text, row),
        _ => Some(from),
    }
}

// The section behind a row: a body begins with the globals.
fn section_behind(section: u64, row: Row) -> u64 {
    match row.kind {
        BODY => 0,
        SECTION => row.a,
        _ => section,
    }
}

// The nodes, with the matchers of one section.
fn past_nodes(line: &[u8], from: usize, text: &[u8], rows: &[u64], section: u64) -> Option<usize> {
    let mut at = from;
    let mut within = 0;
    for numbers in rows.chunks_exact(5) {
        let row = row_of(numbers);
        within = section_behind(within, row);
        at = past_row(line, at, text, row, within == section)?;
    }
    Some(at)
}

// The rows of n events.
fn rows_of(rows: &[u64], n: u64) -> &[u64] {
    rows.get(..n.saturating_mul(5) as usize).unwrap_or(rows)
}

// The Rust tells no number: any refusal of syntax is the same.
fn same_refused(line: &[u8], at: usize, number: u64) -> bool {
    (u64::from(UNREADABLE)..=u64::from(BAD_EXTERN)).contains(&number)
        && past(line, at, b'0') == Some(line.len())
}

fn past_accepted(line: &[u8], at: usize, text: &[u8], rows: &[u64]) -> Option<usize> {
    let globals = past(line, at, b'1')?;
    let locals = past_nodes(line, globals, text, rows, 0)?;
    past_nodes(line, locals, text, rows, 1)
}

fn same_line(line: &[u8]) -> bool {
    let mut room = [0u8; FIELD];
    let field = read_field(line, 4, &mut room);
    let source = match digit(line, 2) {
        Some(d) => d as u32,
        None => NO_SOURCE,
    };
    let mut rows = [0u64; ROOM];
    let told = reading_events(source, field.bytes, &mut rows);
    if byte_or_zero(line, 0) != b'R' {
        return false;
    }
    if told % 256 != 0 {
        return same_refused(line, field.next, told % 256);
    }
    past_accepted(line, field.next, field.bytes, rows_of(&rows, told / 256)) == Some(line.len())
}

fn main(rt: HostRuntime) -> io::Result<()> {
    let mut text = [0u8; 262144];
    let n = read_cases(&rt, &rt.stderr(), &mut text)?;
    print_counts(&rt, replay_lines(&rt, front(&text, n), same_line)?)
}
