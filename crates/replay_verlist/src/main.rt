// Replays worked examples of verlist's input (data/cases.txt) against render_listing, in verlist's own room. Prints the line of each whose output is
// not the one that was derived by hand from documents 01 and 02, with what came instead; then how many are the same and how many are not. A case is two
// lines, the input behind `< ` and the whole output behind `> `; lines that begin otherwise say what the cases are about. In both,
//     \n \r \t \f     are those bytes
//     \x and two hex digits of small letters is a byte
//     \(N text\)      is the text N times, a blank behind the number; one does not stand within another
// and `\` before any other byte is that byte.
#![tactic(auto)]

ghost use Rattle.std.specs.Prelude.{◌≡◌, ◌+◌, ◌-◌, ◌≤◌, ◌<◌, length, IfOk};

use meanings::front;
use printing_listing::render_listing;
use replay::{
    Walk, byte_or_zero, counted, digit, hex_digit, line_at, passed, print_counts, read_cases, start,
};
use std::io;
use std::io::Print;

// The largest number that is read: more than any case has.
const MOST: u64 = 100000;

// The longest input or output of a case.
const ROOM: usize = 66000;

// How much of an output that differs is printed.
const SHOWN: usize = 400;

// Stores a byte at a place, and answers the place behind it; past the end nothing is stored.
fn put(out: &mut [u8], at: usize, b: u8) -> usize {
    match out.get_mut(at) {
        Some(place) => {
            *place = b;
            at + 1
        }
        None => at,
    }
}

// Stores once more what stands from `start` to `end`.
fn put_again(out: &mut [u8], start: usize, end: usize, from: usize) -> usize {
    let mut at = from;
    for i in start..end {
        let b = byte_or_zero(out, i);
        at = put(out, at, b);
    }
    at
}

// Stores what stands from `start` to `end` until it stands there so many times, or `out` is full.
fn repeat(out: &mut [u8], start: usize, end: usize, times: u64) -> usize {
    if end <= start {
        return end;
    }
    let mut at = end;
    for _ in 1..times {
        if out.len() <= at {
            break;
        }
        at = put_again(out, start, end, at);
    }
    at
}

// A number in decimal digits.
fn number_at(line: &[u8], from: usize) -> u64 {
    let mut n: u64 = 0;
    for at in from..line.len() {
        match digit(line, at) {
            Some(d) if n <= MOST => n = n * 10 + d,
            _ => break,
        }
    }
    n
}

// The place behind the next blank, or the end: no more is left behind it.
fn past_blank(line: &[u8], from: usize) -> usize
    ensures { length line.now - result ≤ length line.now - from }
{
    for at in from..line.len() {
        if line[at] == b' ' {
            return at + 1;
        }
    }
    line.len()
}

// The byte that two hex digits are, of which another byte is 0.
fn byte_of(high: u8, low: u8) -> u8 {
    hex_digit(high).unwrap_or(0) * 16 + hex_digit(low).unwrap_or(0)
}

// The byte that a letter behind `\` means.
fn meant(b: u8) -> u8 {
    match b {
        b'n' => b'\n',
        b'r' => b'\r',
        b't' => b'\t',
        b'f' => 12,
        _ => b,
    }
}

// A byte that is written behind `\`, and the place behind it.
#[derive(Clone, Copy)]
struct Escape {
    byte: u8,
    next: usize,
}

fn escape_at(line: &[u8], at: usize) -> Escape
    requires { at ≤ length line.now }
    ensures { (at < result.next) × (result.next ≤ at + 3) }
{
    let c = byte_or_zero(line, at);
    if c == b'x' {
        return Escape {
            byte: byte_of(byte_or_zero(line, at + 1), byte_or_zero(line, at + 2)),
            next: at + 3,
        };
    }
    Escape {
        byte: meant(c),
        next: at + 1,
    }
}

// Stores what a line says behind its sign and a blank, and answers how many bytes it is.
fn expand(line: &[u8], out: &mut [u8]) -> usize {
    let mut end = 0;
    let mut start = 0;
    let mut times: u64 = 1;
    let mut at = 2;
    while at < line.len() {
        let b = line[at];
        at += 1;
        if b != b'\\' {
            end = put(out, end, b);
            continue;
        }
        let c = byte_or_zero(line, at);
        if c == b'(' {
            start = end;
            at += 1;
            times = number_at(line, at);
            at = past_blank(line, at);
            continue;
        }
        if c == b')' {
            end = repeat(out, start, end, times);
            at += 1;
            continue;
        }
        let escape = escape_at(line, at);
        end = put(out, end, escape.byte);
        at = escape.next;
    }
    end
}

// How many bytes an input's output is, in the room that verlist has.
fn list(text: &[u8], out: &mut [u8]) -> usize {
    let mut nodes = [0u32; 3072];
    let mut names = [0u8; 65536];
    let mut lines = [0u32; 10240];
    let mut pool = [0u8; 65536];
    let mut journal = [0u32; 2];
    let listed = render_listing(
        text,
        &mut nodes,
        &mut names,
        &mut lines,
        &mut pool,
        &mut journal,
        out,
    );
    listed.length
}

// The same of a case's two lines. Where the second does not say an output, nothing is listed.
fn list_case(input: &[u8], output: &[u8], out: &mut [u8]) -> usize {
    if byte_or_zero(output, 0) != b'>' {
        return 0;
    }
    let mut text = [0u8; ROOM];
    let n = expand(input, &mut text);
    list(front(&text, n), out)
}

// Whether an output is the one that the case's second line says.
fn same_output(told: &[u8], output: &[u8]) -> bool {
    let mut expected = [0u8; ROOM];
    let n = expand(output, &mut expected);
    byte_or_zero(output, 0) == b'>' && told == front(&expected, n)
}

// What came, where it differs.
fn show(to: &impl Print, told: &[u8], same: bool) -> io::Result<()> {
    if same {
        return Ok(());
    }
    to.write_all(front(told, SHOWN))
}

fn replay(to: &impl Print, text: &[u8], out: &mut [u8]) -> io::Result<Walk>
    ensures { IfOk result (λ r. r.different ≤ r.cases) }
{
    let mut walk = start(text);
    while walk.at < text.len() {
        let input = line_at(text, walk.at);
        walk = passed(text, walk);
        if byte_or_zero(input, 0) != b'<' {
            continue;
        }
        let output = line_at(text, walk.at);
        let n = list_case(input, output, out);
        let same = same_output(front(out, n), output);
        walk = counted(to, walk, same)?;
        show(to, front(out, n), same)?;
    }
    Ok(walk)
}

// Room for what the longest input prints: 48 bytes, and 15 for each of 65,537.
fn output_room() -> [u8; 983104]
    ensures { 983104 ≡ length result }
{
    [0; 983104]
}

fn replay_all(to: &impl Print, text: &[u8]) -> io::Result<Walk>
    ensures { IfOk result (λ r. r.different ≤ r.cases) }
{
    let mut out = output_room();
    replay(to, text, &mut out)
}

fn main(rt: HostRuntime) -> io::Result<()> {
    let mut text = [0u8; 65536];
    let n = read_cases(&rt, &rt.stderr(), &mut text)?;
    print_counts(&rt, replay_all(&rt, front(&text, n))?)
}
