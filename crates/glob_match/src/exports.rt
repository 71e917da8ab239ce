// For a host in another language: numbers and slices only. An answer is a refusal's number, or 256 times a value (specs/Answers.antt). Patterns are read
// as reld reads them. The host owes what Rust's slices owe: each pointer is valid for its length, and a buffer that is written overlaps no other.
ghost use Rattle.std.specs.Prelude.{◌≡◌};
ghost use Rattle.numbers.specs.declared.Edition.TheVariants.{Reld};
ghost use Rattle.storing.specs.Keeping.{keep};
ghost use Rattle.glob_match.specs.Answers.{TellsStored, Unescapes, answer_told, class_told, match_told, unasked_told};

use classes::{class_number, classify};
use numbers::{Edition, NAME_LIMIT, NAME_NOT_UTF8, TOKEN_LIMIT, TOO_LONG};
use storing::{store_token, unescape_pattern};

// The class of a token: 1, or 256 times its number.
#[unsafe(no_mangle)]
pub extern "C" fn glob_match_class(token: &[u8]) -> u64
    ensures { result ≡ class_told token.now }
{
    if TOKEN_LIMIT < token.len() {
        return TOO_LONG as u64;
    }
    256 * (class_number(classify(token)) as u64)
}

// A pattern without its escapes: 1, 8, or 256 times how many bytes were written.
#[unsafe(no_mangle)]
pub extern "C" fn glob_match_unescape(pattern: &[u8], out: &mut [u8]) -> u64
    ensures { Unescapes pattern.now out.old result out.new }
{
    if TOKEN_LIMIT < pattern.len() {
        return TOO_LONG as u64;
    }
    match unescape_pattern(pattern, out) {
        Ok(stored) => 256 * (stored.size as u64),
        Err(no) => no.number() as u64,
    }
}

// A token as it is stored: 1, 5, 6, 8, or 256 times its class and eight times how many bytes were written.
#[unsafe(no_mangle)]
pub extern "C" fn glob_match_store(token: &[u8], out: &mut [u8]) -> u64
    ensures { TellsStored (keep Reld token.now) out.old result out.new }
{
    match store_token(Edition::Reld, token, out) {
        Ok(stored) => 256 * ((class_number(stored.class) as u64) + 8 * (stored.size as u64)),
        Err(no) => no.number() as u64,
    }
}

fn told(matched: bool) -> u64
    ensures { result ≡ answer_told matched }
{
    if matched { 256 } else { 0 }
}

// Whether a stored pattern matches a name: 1, 5, 6, 9, or 256 where it does and 0 where not.
#[unsafe(no_mangle)]
pub extern "C" fn glob_match_matches(stored: &[u8], name: &[u8]) -> u64
    ensures { result ≡ match_told Reld stored.now name.now }
{
    if TOKEN_LIMIT < stored.len() {
        return TOO_LONG as u64;
    }
    if NAME_LIMIT < name.len() {
        return TOO_LONG as u64;
    }
    if let Err(no) = pattern_check::pattern_refusal(Edition::Reld, stored, false) {
        return no.number() as u64;
    }
    if !utf8::is_utf8(name) {
        return NAME_NOT_UTF8 as u64;
    }
    told(matching::match_name(Edition::Reld, stored, name).matched)
}

// The matcher alone, for measuring it: 1, or 256 where the pattern matches the name and 0 where not. It asks neither whether the bytes are UTF-8 nor
// whether the brackets are closed.
#[unsafe(no_mangle)]
pub extern "C" fn glob_match_tried(stored: &[u8], name: &[u8]) -> u64
    ensures { result ≡ unasked_told Reld stored.now name.now }
{
    if TOKEN_LIMIT < stored.len() {
        return TOO_LONG as u64;
    }
    if NAME_LIMIT < name.len() {
        return TOO_LONG as u64;
    }
    told(matching::match_name(Edition::Reld, stored, name).matched)
}
