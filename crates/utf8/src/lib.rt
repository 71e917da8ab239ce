// UTF-8 (RFC 3629): the character at a place of a text with the place behind it, and whether a text is UTF-8. It knows of
// no pattern and no book. Definitions: specs/Utf8.antt. No function has a `requires` that a caller outside has to meet.
#![tactic(auto)]

ghost use Rattle.std.specs.Prelude.{◌≡◌, ◌&&◌, ◌+◌, ◌<◌, ◌≤◌, length, get_or};
ghost use Rattle.utf8.specs.Utf8.{scalar, tail, two, three, four, starts, none, character, utf8};
ghost use Rattle.utf8.specs.At.{placed, character_at};

// The character at a place: its number, the place behind it, and whether one starts there. Where none does it is U+FFFD and
// one byte long; at the end of the text, and past it, U+FFFD and no byte long.
// No Option: a reader goes on behind U+FFFD as behind any other number, so `good` is beside a number that is always there. std's `chars` reads valid text only.
#[derive(Clone, Copy)]
pub struct Character {
    pub number: u32,
    pub next: usize,
    pub good: bool,
}

fn wide(b: u8) -> u32
    ensures { (result ≡ b) × (result < 256) }
{
    b as u32
}

fn byte_or_zero(s: &[u8], at: usize) -> u32
    ensures { (result ≡ get_or s.now at 0) × (result < 256) }
{
    if at < s.len() { wide(s[at]) } else { 0 }
}

fn is_tail(b: u32) -> bool
    ensures { result ≡ tail b }
{
    0x80 <= b && b < 0xC0
}

fn is_scalar(c: u32) -> bool
    ensures { result ≡ scalar c }
{
    c <= 0x10FFFF && (c < 0xD800 || 0xDFFF < c)
}

fn found(at: usize, c: u32, more: usize) -> Character
    requires { at + (1 + more) < 18446744073709551616 }
    ensures { result ≡ placed at (character c more) }
{
    Character {
        number: c,
        next: at + (1 + more),
        good: true,
    }
}

fn not_found(at: usize) -> Character
    requires { at + 1 < 18446744073709551616 }
    ensures { result ≡ placed at none }
{
    Character {
        number: 0xFFFD,
        next: at + 1,
        good: false,
    }
}

fn of_two(at: usize, a: u32, b: u32) -> Character
    requires { at + 4 < 18446744073709551616 }
    ensures { result ≡ placed at (two a b) }
{
    if !is_tail(b) {
        return not_found(at);
    }
    found(at, a % 0x20 * 0x40 + b % 0x40, 1)
}

fn of_three(at: usize, a: u32, b: u32, c: u32) -> Character
    requires { at + 4 < 18446744073709551616 }
    ensures { result ≡ placed at (three a b c) }
{
    if !is_tail(b) {
        return not_found(at);
    }
    if !is_tail(c) {
        return not_found(at);
    }
    let v = a % 0x10 * 0x1000 + b % 0x40 * 0x40 + c % 0x40;
    if v < 0x800 {
        return not_found(at);
    }
    if !is_scalar(v) {
        return not_found(at);
    }
    found(at, v, 2)
}

fn of_four(at: usize, a: u32, b: u32, c: u32, d: u32) -> Character
    requires { at + 4 < 18446744073709551616 }
    ensures { result ≡ placed at (four a b c d) }
{
    if !is_tail(b) {
        return not_found(at);
    }
    if !is_tail(c) {
        return not_found(at);
    }
    if !is_tail(d) {
        return not_found(at);
    }
    let v = a % 8 * 0x40000 + b % 0x40 * 0x1000 + c % 0x40 * 0x40 + d % 0x40;
    if v < 0x10000 {
        return not_found(at);
    }
    if 0x10FFFF < v {
        return not_found(at);
    }
    found(at, v, 3)
}

// The character that starts at the byte a, which is no ASCII, with b, c and d behind it, 0 where there is no byte.
fn of_many(at: usize, a: u32, b: u32, c: u32, d: u32) -> Character
    requires { (at + 4 < 18446744073709551616) × (0x80 ≤ a) }
    ensures { result ≡ placed at (starts a b c d) }
{
    match a {
        0xC2..0xE0 => of_two(at, a, b),
        0xE0..0xF0 => of_three(at, a, b, c),
        0xF0..0xF5 => of_four(at, a, b, c, d),
        _ => not_found(at),
    }
}

// The character at a place of s whose byte there, a, is no ASCII. It stands apart so that a caller's loop holds only the way of ASCII, which most names
// are; as its one caller would be inlined into no loop with it inside, it is never inlined.
#[inline(never)]
fn longer(s: &[u8], at: usize, a: u32) -> Character
    requires { (at < length s.now) × (a ≡ get_or s.now at 0) × (0x80 ≤ a) × (a < 256) }
    ensures { result ≡ character_at s.now at }
{
    let b = byte_or_zero(s, at + 1);
    let c = byte_or_zero(s, at + 2);
    let d = byte_or_zero(s, at + 3);
    of_many(at, a, b, c, d)
}

// The character at a place of s.
pub fn character_at(s: &[u8], at: usize) -> Character
    ensures { result ≡ character_at s.now at }
{
    if s.len() <= at {
        return Character {
            number: 0xFFFD,
            next: at,
            good: false,
        };
    }
    let a = wide(s[at]);
    if a < 0x80 {
        return found(at, a, 0);
    }
    longer(s, at, a)
}

// Whether s is UTF-8.
pub fn is_utf8(s: &[u8]) -> bool
    ensures { result ≡ utf8 s.now }
{
    str::from_utf8(s).is_ok()
}
