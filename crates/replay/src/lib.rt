// What the programs share that replay cases with the answers that they are to have: the fields of a case's line, the file of the cases, the walk through its
// lines, and what is printed. A program goes through the lines, answers each, and hands over whether the answer is the same. Definitions: specs/Walks.antt.
#![tactic(auto)]

ghost use Rattle.std.specs.Prelude.{◌+◌, ◌<◌, ◌≤◌, ◌≡◌, length, IfOk, IfSome};
ghost use Rattle.replay.specs.Walks.{Further, Walks};

use input::splitting::{line_end, part_before};
use linker_script::trim_ascii_end;
use meanings::{front, read_input, say};
use std::io::{Cursor, Print, Write};
use std::rt::Files;
use std::{fs, io};

// The value of a hex digit of small letters.
pub fn hex_digit(b: u8) -> Option<u8>
    ensures { IfSome result (λ d. d < 16) }
{
    match b {
        b'0'..=b'9' => Some(b - b'0'),
        b'a'..=b'f' => Some(b - b'a' + 10),
        _ => None,
    }
}

pub fn byte_or_zero(line: &[u8], at: usize) -> u8 {
    line.get(at).copied().unwrap_or(0)
}

// The value of the decimal digit at a place.
pub fn digit(line: &[u8], at: usize) -> Option<u64>
    ensures { IfSome result (λ d. d < 10) }
{
    match byte_or_zero(line, at) {
        b @ b'0'..=b'9' => Some(u64::from(b - b'0')),
        _ => None,
    }
}

// The longest field, in bytes.
pub const FIELD: usize = 256;

// A field's bytes, and the place behind the blank that ends it.
#[derive(Clone, Copy)]
pub struct Field<'a> {
    pub bytes: &'a [u8],
    pub next: usize,
}

// The byte that two hex digits at a place are.
fn pair(line: &[u8], at: usize) -> Option<u8>
    requires { at ≤ 2000 }
{
    let high = hex_digit(byte_or_zero(line, at))?;
    let low = hex_digit(byte_or_zero(line, at + 1))?;
    Some(high * 16 + low)
}

// The place behind a field of n bytes; no bytes are one `-`.
fn behind(from: usize, n: usize) -> usize
    requires { (from ≤ 1000) × (n ≤ 256) }
    ensures { result ≤ from + 514 }
{
    if n == 0 {
        return from + 2;
    }
    from + 2 * n + 1
}

// The field at a place of a line, its bytes in `room`.
pub fn read_field<'a>(line: &[u8], from: usize, room: &'a mut [u8; FIELD]) -> Field<'a>
    requires { from ≤ 1000 }
    ensures { result.next ≤ from + 514 }
{
    let mut n = 0;
    for i in 0..FIELD {
        let Some(b) = pair(line, from + 2 * i) else {
            break;
        };
        room[i] = b;
        n = i + 1;
    }
    Field {
        bytes: &room[..n],
        next: behind(from, n),
    }
}

// Why the cases were not opened, for a person: the system's words, without the number that `std` puts behind them in parentheses.
fn say_unopened(err: &impl Print, why: io::Error) -> io::Result<()> {
    let mut text = Cursor::new([0u8; 320]);
    write!(text, "{why}")?;
    let written = text.position() as usize;
    let bytes = text.into_inner();
    say(err, b"cases.txt: ")?;
    say(
        err,
        trim_ascii_end(part_before(front(&bytes, written), b'(')),
    )?;
    say(err, b"\n")
}

// Reads the cases, and answers how many bytes they are: none where they cannot be opened, and then the standard error `err` says why. An error, of reading or
// of the standard error, leaves the text its length, as the type says, and no more is known: no contract says what bytes a file has.
pub fn read_cases<R: Files>(rt: &R, err: &impl Print, text: &mut [u8]) -> io::Result<usize>
    ensures { IfOk result (λ n. n ≤ length text.new) }
{
    match fs::open(rt, "cases.txt") {
        Ok(mut file) => read_input(&mut file, text),
        Err(why) => {
            say_unopened(err, why)?;
            Ok(0)
        }
    }
}

fn print(to: &impl Print, bytes: &[u8]) -> io::Result<()> {
    to.write_all(bytes)
}

fn print_count(to: &impl Print, label: &[u8], n: u64) -> io::Result<()> {
    print(to, label)?;
    print!(to; "{n}")
}

// Names a case that differs by its line.
fn print_different(to: &impl Print, line: u64) -> io::Result<()> {
    print_count(to, b"different: line ", line)?;
    print(to, b"\n")
}

// Where the next line begins, how many lines were met, how many of them are cases, and how many of those differ.
#[derive(Clone, Copy)]
pub struct Walk {
    pub at: usize,
    pub lines: u64,
    pub cases: u64,
    pub different: u64,
}

// Before the first line.
pub fn start(text: &[u8]) -> Walk
    ensures { Walks (length text.now) result }
{
    Walk {
        at: 0,
        lines: 0,
        cases: 0,
        different: 0,
    }
}

// The line that begins at a place, no bytes behind the last one.
pub fn line_at(text: &[u8], from: usize) -> &[u8] {
    let rest = &text[from.min(text.len())..];
    &rest[..line_end(rest, 0)]
}

// Behind the next line.
pub fn passed(text: &[u8], w: Walk) -> Walk
    requires { Walks (length text.now) w × (w.at < length text.now) }
    ensures { Further (length text.now) w.at result × (result.cases < result.lines) }
{
    Walk {
        at: line_end(text, w.at) + 1,
        lines: w.lines + 1,
        ..w
    }
}

// The line that was passed is a case, and its answer is the same or is not: then the line is named.
pub fn counted(to: &impl Print, w: Walk, same: bool) -> io::Result<Walk>
    requires { (w.cases < w.lines) × (w.different ≤ w.cases) }
    ensures { IfOk result (λ r. (r.at ≡ w.at) × (r.lines ≡ w.lines) × (r.cases ≤ w.lines) × (r.different ≤ r.cases)) }
{
    let cases = w.cases + 1;
    if same {
        return Ok(Walk { cases, ..w });
    }
    print_different(to, w.lines)?;
    Ok(Walk {
        cases,
        different: w.different + 1,
        ..w
    })
}

// Each line is a case; `same` tells of one whether its answer is the same.
pub fn replay_lines<F: Fn(&[u8]) -> bool>(to: &impl Print, text: &[u8], same: F) -> io::Result<Walk>
    requires { F.IsAlwaysCallable same }
    ensures { IfOk result (λ r. r.different ≤ r.cases) }
{
    let mut walk = start(text);
    while walk.at < text.len() {
        let is_same = same(line_at(text, walk.at));
        walk = counted(to, passed(text, walk), is_same)?;
    }
    Ok(walk)
}

// How many cases are the same, and how many are not.
pub fn print_counts(to: &impl Print, w: Walk) -> io::Result<()>
    requires { w.different ≤ w.cases }
{
    print_count(to, b"same ", w.cases - w.different)?;
    print_count(to, b" different ", w.different)?;
    print(to, b"\n")
}
