// Replays a sample of the Rust's answers (data/cases.txt) against glob_match, and prints the line of each that differs, and how many are the same and how
// many differ. How the sample was made is said in docs/DIFFERENCES.md. One case a line, fields split by a blank, bytes as hex, no bytes as `-`:
//     C token class
//     U pattern unescaped
//     S token class stored, or S token ! refusal
//     M stored name 0 or 1
#![tactic(auto)]

ghost use Rattle.std.specs.Prelude.{◌≤◌};

use glob_match::exports::{
    glob_match_class, glob_match_matches, glob_match_store, glob_match_unescape,
};
use meanings::front;
use replay::{FIELD, byte_or_zero, digit, print_counts, read_cases, read_field, replay_lines};
use std::io;

// What an untouched byte of an output buffer holds.
const GUARD: u8 = 0xA5;

// Whether the bytes stand at the front of a buffer whose rest is as it was.
fn stands(out: &[u8], bytes: &[u8]) -> bool {
    out.strip_prefix(bytes)
        .is_some_and(|rest| rest.iter().all(|b| *b == GUARD))
}

fn same_unescaped(pattern: &[u8], want: &[u8]) -> bool {
    let mut out = [GUARD; 80];
    let told = glob_match_unescape(pattern, &mut out);
    told / 256 == want.len() as u64 && told % 256 == 0 && stands(&out, want)
}

fn same_stored(token: &[u8], class: u64, want: &[u8]) -> bool {
    let mut out = [GUARD; 80];
    let told = glob_match_store(token, &mut out);
    told % 256 == 0
        && told / 256 % 8 == class
        && told / 2048 == want.len() as u64
        && stands(&out, want)
}

fn same_refused(token: &[u8], refusal: u64) -> bool {
    let mut out = [GUARD; 80];
    let told = glob_match_store(token, &mut out);
    told == refusal && stands(&out, b"")
}

// Each of the two below answers for a line from its second field on, which begins at this place: of a token; of a pattern, unescaped (U) or matched (M).
fn same_token(token: &[u8], line: &[u8], at: usize) -> bool
    requires { at ≤ 516 }
{
    if byte_or_zero(line, at) == b'!' {
        return digit(line, at + 2).is_some_and(|refusal| same_refused(token, refusal));
    }
    let mut room = [0u8; FIELD];
    let want = read_field(line, at + 2, &mut room);
    digit(line, at).is_some_and(|class| same_stored(token, class, want.bytes))
}

fn same_pattern(tag: u8, pattern: &[u8], line: &[u8], at: usize) -> bool
    requires { at ≤ 516 }
{
    let mut room = [0u8; FIELD];
    let second = read_field(line, at, &mut room);
    match tag {
        b'U' => same_unescaped(pattern, second.bytes),
        b'M' => is_answer(glob_match_matches(pattern, second.bytes), line, second.next),
        _ => false,
    }
}

// Whether a number that is told, without a refusal, is the digit at a place.
fn is_answer(told: u64, line: &[u8], at: usize) -> bool {
    told % 256 == 0 && digit(line, at) == Some(told / 256)
}

fn same_line(line: &[u8]) -> bool {
    let mut room = [0u8; FIELD];
    let first = read_field(line, 2, &mut room);
    match byte_or_zero(line, 0) {
        b'C' => is_answer(glob_match_class(first.bytes), line, first.next),
        b'S' => same_token(first.bytes, line, first.next),
        tag => same_pattern(tag, first.bytes, line, first.next),
    }
}

fn main(rt: HostRuntime) -> io::Result<()> {
    let mut text = [0u8; 262144];
    let n = read_cases(&rt, &rt.stderr(), &mut text)?;
    print_counts(&rt, replay_lines(&rt, front(&text, n), same_line)?)
}
