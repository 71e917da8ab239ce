// Words, names and the ends of tokens, which are a matter of the edition: the leaves of the reader. Definitions: specs/Tokens.antt, from document 01,
// 'Reading'.
#![tactic(auto)]

ghost use Rattle.std.specs.Prelude.{◌≡◌, ◌+◌, ◌<◌};
ghost use Rattle.linker_script.specs.Finding.{last_close};
ghost use Rattle.reading_tokens.specs.Tokens.{stands_at, name_end, to_semicolon, to_brace, to_either, bare_extern_end, bare_end, bare_skip};

use crate::names::is_named;
use linker_script::byte_at;
use linker_script::searching::find;
use numbers::{Edition, Refusal};

pub mod names;

// Whether the word w stands at a place of s: what `try_take` asks before it takes.
pub fn try_take(s: &[u8], w: &[u8], at: usize) -> bool
    ensures { result ≡ stands_at w.now s.now at }
{
    s[at.min(s.len())..].starts_with(w)
}

// Where the name at a place ends: `parse_token`.
pub fn parse_token(s: &[u8], at: usize) -> usize
    ensures { result ≡ name_end s.now at }
{
    for i in at..s.len() {
        if !is_named(s[i]) {
            return i;
        }
    }
    at.max(s.len())
}

// Up to the first `;`.
pub fn to_semicolon(edition: Edition, s: &[u8], at: usize) -> Result<usize, Refusal>
    ensures { result ≡ to_semicolon edition s.now at }
{
    match find(s, b';', at) {
        Some(semicolon) if at < semicolon => Ok(semicolon),
        _ => Err(Refusal::Unreadable),
    }
}

// Up to the first `}`.
fn to_brace(edition: Edition, s: &[u8], at: usize) -> Result<usize, Refusal>
    ensures { result ≡ to_brace edition s.now at }
{
    match find(s, b'}', at) {
        Some(q) if at < q => Ok(q),
        Some(_) => Err(Refusal::Unreadable),
        None => Err(Refusal::Unclosed),
    }
}

// In an extern block: up to `}` where no `};` is left, or one with no `;` before it. `last` is the place from which on the text has no `};`: so that is not
// looked for anew at each token; and one that is left has no `;` before it where the first `;` has a `}` before it.
pub fn extern_end(edition: Edition, last: usize, s: &[u8], at: usize) -> Result<usize, Refusal>
    requires { last ≡ last_close s.now }
    ensures { result ≡ to_either edition s.now at }
{
    if last <= at {
        return to_brace(edition, s, at);
    }
    match find(s, b';', at) {
        None => to_brace(edition, s, at),
        Some(q) => {
            if q <= at {
                return Err(Refusal::Unreadable);
            }
            if byte_at(s, q - 1) == b'}' {
                return to_brace(edition, s, at);
            }
            Ok(q)
        }
    }
}

// In an extern block of an `add_symbol` text without semicolon.
pub fn bare_extern_end(edition: Edition, last: usize, s: &[u8], at: usize) -> Result<usize, Refusal>
    requires { last ≡ last_close s.now }
    ensures { result ≡ bare_extern_end edition s.now at }
{
    if last <= at {
        return to_semicolon(edition, s, at);
    }
    extern_end(edition, last, s, at)
}

// A whole `add_symbol` text without semicolon, as a token.
pub fn bare_end(edition: Edition, s: &[u8]) -> Result<usize, Refusal>
    ensures { result ≡ bare_end edition s.now }
{
    match find(s, b'}', 0) {
        Some(0) => Err(Refusal::Unreadable),
        Some(q) => Ok(q),
        None => Ok(s.len()),
    }
}

// Where the skip behind that token starts.
pub fn bare_skip(edition: Edition, s: &[u8]) -> usize
    ensures { result ≡ bare_skip edition s.now }
{
    find(s, b'}', 0).unwrap_or(0)
}
