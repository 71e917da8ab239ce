// Matchers: tokens and extern blocks, the leaves of the reader's steps. Definitions: specs/Matchers.antt, from document 01, 'Reading'. What most steps of a
// reading pass is always inlined, since a step that comes out of a call is copied once more.
#![tactic(auto)]

ghost use Rattle.std.specs.Prelude.{◌≡◌, ◌<◌, ◌≤◌, length};
ghost use Rattle.linker_script.specs.Finding.{last_close};
ghost use Rattle.linker_script.specs.Parts.{behind};
ghost use Rattle.reading_tokens.specs.Tokens.{trimmed};
ghost use Rattle.reading_matchers.specs.Matchers.{extern_word, past_semicolon, line, line_to, token_end, extern_open, extern_at};
ghost use Rattle.reading_matchers.specs.Matchers.{extern_inside, in_extern, in_bare, matcher, bare_line, bare_matcher};

use linker_script::{byte_at, trimmed_length};
use numbers::Refusal;
use reading_cursors::places::Place;
use reading_cursors::{Cursor, Event, RefusedAt, Step, move_to, refuse, skip_at, with_language};
use reading_tokens::{bare_end, bare_extern_end, bare_skip, extern_end, to_semicolon, try_take};

// Past a `;` if there is one.
fn past_semicolon(s: &[u8], at: usize) -> usize
    ensures { result ≡ past_semicolon s.now at }
{
    if byte_at(s, at) == b';' {
        return at + 1;
    }
    at
}

// How long the token from p to q is without its trailing blanks.
fn trimmed_token(s: &[u8], p: usize, q: usize) -> usize
    ensures { result ≡ trimmed s.now p q }
{
    if s.len() <= p {
        return 0;
    }
    if q <= p {
        return 0;
    }
    if s.len() < q {
        return trimmed_length(&s[p..]);
    }
    trimmed_length(&s[p..q])
}

fn line_of(c: Cursor, s: &[u8], p: usize, q: usize) -> Event
    ensures { result ≡ line c s.now p q }
{
    Event::Line {
        section: c.section,
        language: c.language,
        start: p,
        len: trimmed_token(s, p, q),
    }
}

// The end of the token that starts at p, or why there is none.
fn token_end(end: Result<usize, Refusal>, p: usize) -> Result<usize, RefusedAt>
    ensures { result ≡ token_end p end }
{
    end.map_err(|refusal| RefusedAt { refusal, place: p })
}

// A token from p to its end, a skip, a `;` if there.
#[inline(always)]
fn line_to(c: Cursor, s: &[u8], place: Place, p: usize, end: Result<usize, Refusal>) -> Step
    ensures { result ≡ line_to c s.now place p end }
{
    let q = token_end(end, p)?;
    let r = skip_at(c, s, q)?;
    let next = move_to(c, place, past_semicolon(s, r));
    Ok(Some((line_of(c, s, p, q), next)))
}

// The `{` of an extern block, whose tokens are read at `place`.
fn extern_open(c: Cursor, s: &[u8], place: Place, language: u32, p: usize) -> Step
    ensures { result ≡ extern_open c s.now place language p }
{
    let r = skip_at(c, s, p)?;
    if byte_at(s, r) != b'{' {
        return refuse(Refusal::Unreadable, r);
    }
    let event = Event::Extern {
        section: c.section,
        language,
    };
    let next = move_to(with_language(c, language), place, r + 1);
    Ok(Some((event, next)))
}

// An extern block whose `extern ` stands at p.
fn extern_at(c: Cursor, s: &[u8], place: Place, p: usize) -> Step
    requires { behind extern_word p ≤ length s.now }
    ensures { result ≡ extern_at c s.now place p }
{
    if try_take(s, b"\"C++\"", p + 7) {
        return extern_open(c, s, place, 1, p + 12);
    }
    if try_take(s, b"\"C\"", p + 7) {
        return extern_open(c, s, place, 0, p + 10);
    }
    refuse(Refusal::BadExtern, p)
}

// In an extern block, behind a skip: its `};`, or a token with the given end. Behind the block the reading
// goes on at `place`.
fn extern_inside(c: Cursor, s: &[u8], place: Place, p: usize, end: Result<usize, Refusal>) -> Step
    ensures { result ≡ extern_inside c s.now place p end }
{
    if try_take(s, b"};", p) {
        let r = skip_at(c, s, p + 2)?;
        let next = move_to(with_language(c, 0), place, r);
        return Ok(Some((Event::Closed, next)));
    }
    if try_take(s, b"extern ", p) {
        return refuse(Refusal::BadExtern, p);
    }
    line_to(c, s, c.place, p, end)
}

// `last` is the place from which on the text has no `};`.
#[inline(always)]
pub fn in_extern(c: Cursor, last: usize, s: &[u8], place: Place) -> Step
    requires { last ≡ last_close s.now }
    ensures { result ≡ in_extern c s.now place }
{
    let p = skip_at(c, s, c.at)?;
    let end = extern_end(c.edition, last, s, p);
    extern_inside(c, s, place, p, end)
}

// The same in an `add_symbol` text without semicolon.
pub fn in_bare(c: Cursor, last: usize, s: &[u8], place: Place) -> Step
    requires { last ≡ last_close s.now }
    ensures { result ≡ in_bare c s.now place }
{
    let p = skip_at(c, s, c.at)?;
    let end = bare_extern_end(c.edition, last, s, p);
    extern_inside(c, s, place, p, end)
}

// A matcher at p; an extern block of it is read at `inner`, and behind its token the reading stands at `place`.
#[inline(always)]
pub fn parse_matcher(c: Cursor, s: &[u8], inner: Place, place: Place, p: usize) -> Step
    ensures { result ≡ matcher c s.now inner place p }
{
    if try_take(s, b"extern ", p) {
        return extern_at(c, s, inner, p);
    }
    line_to(c, s, place, p, to_semicolon(c.edition, s, p))
}

fn bare_line(c: Cursor, s: &[u8], place: Place, end: Result<usize, Refusal>) -> Step
    ensures { result ≡ bare_line c s.now place end }
{
    let q = token_end(end, 0)?;
    skip_at(c, s, bare_skip(c.edition, s))?;
    let next = move_to(c, place, s.len() + 1);
    Ok(Some((line_of(c, s, 0, q), next)))
}

// The one matcher of an `add_symbol` text without semicolon.
pub fn parse_bare_matcher(c: Cursor, s: &[u8], inner: Place, place: Place) -> Step
    ensures { result ≡ bare_matcher c s.now inner place }
{
    if try_take(s, b"extern ", 0) {
        return extern_at(c, s, inner, 0);
    }
    bare_line(c, s, place, bare_end(c.edition, s))
}
