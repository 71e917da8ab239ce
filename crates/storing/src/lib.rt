// glob_match.rs: the bytes that are stored of a token, at the front of a lent buffer. What is refused writes nothing. `store_token` has the whole way from
// a token to its stored bytes. It asks the token's limit; what it calls does not ask it again. Definitions: specs/Keeping.antt and specs/Answers.antt, from
// document 01 and request 01 of document 02.
#![tactic(auto)]

ghost use Rattle.std.specs.Prelude.{◌≡◌, ◌≤◌, length};
ghost use Rattle.lists.specs.Front.{front};
ghost use Rattle.pattern.specs.Storing.{stored_byte};
ghost use Rattle.storing.specs.Keeping.{unescape, kept, keep, keep_glob, keep_scanned};
ghost use Rattle.storing.specs.Answers.{Stores};

use classes::{Class, analyze_glob_pattern, is_lone_star, is_quoted};
use numbers::{Edition, Refusal, TOKEN_LIMIT};

pub mod runs;

// What is stored of a token: its class, and how many bytes of a lent buffer hold it. Where a token is refused nothing was written.
#[derive(Clone, Copy)]
pub struct Stored {
    pub class: Class,
    pub size: usize,
}

// Bytes at the front of a buffer that has room for them.
fn copy(bytes: &[u8], out: &mut [u8])
    requires { length bytes.now ≤ length out.old }
    ensures { out.new ≡ front bytes.now out.old }
{
    out[..bytes.len()].copy_from_slice(bytes);
}

// Bytes that are stored as they are.
fn store_exact(exact: &[u8], out: &mut [u8]) -> Result<Stored, Refusal>
    ensures { Stores (kept Class.Exact exact.now) out.old result out.new }
{
    if out.len() < exact.len() {
        return Err(Refusal::NoRoom);
    }
    copy(exact, out);
    Ok(Stored {
        class: Class::Exact,
        size: exact.len(),
    })
}

// How many bytes `unescape_pattern` leaves: a `\` with a byte behind it goes, and that byte stays. A step is one byte or two: an iterator would be stepped by
// hand too.
fn unescaped_length(pattern: &[u8]) -> usize
    ensures { result ≡ length (unescape pattern.now) }
{
    let mut i = 0;
    let mut n = 0;
    while i < pattern.len() {
        n += 1;
        if pattern[i] == b'\\' {
            i += 2;
            continue;
        }
        i += 1;
    }
    n
}

fn copy_unescaped(src: &[u8], out: &mut [u8])
    requires { length (unescape src.now) ≤ length out.old }
    ensures { out.new ≡ front (unescape src.now) out.old }
{
    let mut i = 0;
    let mut n = 0;
    while i < src.len() {
        let j = i + 1;
        if src[i] == b'\\' {
            if j < src.len() {
                out[n] = src[j];
                n += 1;
                i = j + 1;
                continue;
            }
        }
        out[n] = src[i];
        n += 1;
        i = j;
    }
}

// An Escaped token, without its escapes; a final `\` stays.
pub fn unescape_pattern(pattern: &[u8], out: &mut [u8]) -> Result<Stored, Refusal>
    ensures { Stores (kept Class.Escaped (unescape pattern.now)) out.old result out.new }
{
    let size = unescaped_length(pattern);
    if out.len() < size {
        return Err(Refusal::NoRoom);
    }
    copy_unescaped(pattern, out);
    Ok(Stored {
        class: Class::Escaped,
        size,
    })
}

// A byte of a glob, where each `[^` becomes `[!`; `opened` says that a `[` stands just before it.
fn with_negation(opened: bool, c: u8) -> u8
    ensures { result ≡ stored_byte opened c }
{
    if opened && c == b'^' { b'!' } else { c }
}

// A glob of the given class: its refusal, 5 or 6, or its bytes with each `[^` as `[!` and each run of stars outside
// brackets as one.
fn compile_glob_pattern(
    edition: Edition,
    class: Class,
    token: &[u8],
    out: &mut [u8],
) -> Result<Stored, Refusal>
    ensures { Stores (keep_glob edition class token.now) out.old result out.new }
{
    pattern_check::pattern_refusal(edition, token, true)?;
    if !runs::has_room(edition, token, out.len()) {
        return Err(Refusal::NoRoom);
    }
    let size = runs::copy_kept(edition, token, out);
    Ok(Stored { class, size })
}

// A token by its class, without a look at quotes.
fn store_scanned(edition: Edition, token: &[u8], out: &mut [u8]) -> Result<Stored, Refusal>
    ensures { Stores (keep_scanned edition token.now) out.old result out.new }
{
    if is_lone_star(token) {
        return Ok(Stored {
            class: Class::All,
            size: 0,
        });
    }
    match analyze_glob_pattern(token) {
        Class::Exact => store_exact(token, out),
        Class::Escaped => unescape_pattern(token, out),
        Class::NonStar => compile_glob_pattern(edition, Class::NonStar, token, out),
        Class::Star => compile_glob_pattern(edition, Class::Star, token, out),
        Class::All => Ok(Stored {
            class: Class::All,
            size: 0,
        }),
    }
}

// A token, whole: its class and what is stored of it, or 1, 5, 6, 8, in this order.
pub fn store_token(edition: Edition, token: &[u8], out: &mut [u8]) -> Result<Stored, Refusal>
    ensures { Stores (keep edition token.now) out.old result out.new }
{
    if TOKEN_LIMIT < token.len() {
        return Err(Refusal::TooLong);
    }
    if is_quoted(token) {
        let end = token.len() - 1;
        return store_exact(&token[1..end], out);
    }
    store_scanned(edition, token, out)
}
