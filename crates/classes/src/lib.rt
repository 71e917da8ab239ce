// glob_match.rs: the class of a token. `classify` has the quote and `*` rules of `parse_matcher` too. Definitions: specs/Classes.antt, from document 01.
#![tactic(auto)]

ghost use Rattle.std.specs.Prelude.{◌≡◌, false, ◌+◌, ◌≤◌, drop, length};
ghost use Rattle.classes.specs.Classes.{class_number, class_of, escaped, lone_star, quoted, scan, scanned, sign};

// The classes of 01, with their numbers.
#[derive(Clone, Copy)]
pub enum Class {
    Exact = 0,
    Escaped = 1,
    NonStar = 2,
    Star = 3,
    All = 4,
}

// The paper's number of a class.
pub fn class_number(class: Class) -> u32
    ensures { result ≡ class_number class }
{
    class as u32
}

// A `\` makes an Exact into Escaped.
fn with_escape(class: Class) -> Class
    ensures { result ≡ escaped class }
{
    match class {
        Class::Exact => Class::Escaped,
        other => other,
    }
}

// The class behind one byte more, which is no `*`.
fn with_byte(class: Class, c: u8) -> Class
    ensures { result ≡ scanned class c }
{
    match c {
        b'\\' => with_escape(class),
        b'[' | b']' | b'?' => Class::NonStar,
        _ => class,
    }
}

// Whether a byte is a sign that the scan looks for. All tests are made at every byte, with no way out between them, so that many bytes can be tested at a
// time.
fn is_sign(c: u8) -> bool
    ensures { result ≡ sign c }
{
    (c == b'*') | ((c == b'\\') | ((c == b'[') | ((c == b']') | (c == b'?'))))
}

// Whether a sign stands in the 16 bytes from a place on. `any` would leave at the first, and test one byte at a time.
fn has_sign(pattern: &[u8], at: usize) -> bool
    requires { at + 16 ≤ length pattern.now }
    ensures { result ≡ false
        → scan Class.Exact false (drop at pattern.now) ≡ scan Class.Exact false (drop (at + 16) pattern.now) }
{
    let mut found = false;
    for i in 0..16 {
        found |= is_sign(pattern[at + i]);
    }
    found
}

// How many bytes the blocks of 16 at the front have, up to the first block with a sign. Over `chunks_exact` the place would be counted beside the blocks.
fn plain_blocks(pattern: &[u8]) -> usize
    ensures { scan Class.Exact false pattern.now ≡ scan Class.Exact false (drop result pattern.now) }
{
    let mut i = 0;
    while 16 <= pattern.len() - i {
        if has_sign(pattern, i) {
            return i;
        }
        i += 16;
    }
    i
}

// The scan: a `*` decides at once, a `\` skips a byte, so that a step is one byte or two. Blocks without a sign are passed first. No sign stands behind `]`,
// and most letters do.
pub fn analyze_glob_pattern(pattern: &[u8]) -> Class
    ensures { result ≡ scan Class.Exact false pattern.now }
{
    let mut class = Class::Exact;
    let mut i = plain_blocks(pattern);
    while i < pattern.len() {
        let c = pattern[i];
        if b']' < c {
            i += 1;
            continue;
        }
        if c == b'*' {
            return Class::Star;
        }
        class = with_byte(class, c);
        if c == b'\\' {
            i += 2;
            continue;
        }
        i += 1;
    }
    class
}

pub fn is_quoted(token: &[u8]) -> bool
    ensures { result ≡ quoted token.now }
{
    2 <= token.len() && (token[0] == b'"' && token[token.len() - 1] == b'"')
}

pub fn is_lone_star(token: &[u8]) -> bool
    ensures { result ≡ lone_star token.now }
{
    token.len() == 1 && token[0] == b'*'
}

// The class of a token, by its quotes, as `*`, or by the scan, in this order.
pub fn classify(token: &[u8]) -> Class
    ensures { result ≡ class_of token.now }
{
    if is_quoted(token) {
        return Class::Exact;
    }
    if is_lone_star(token) {
        return Class::All;
    }
    analyze_glob_pattern(token)
}
