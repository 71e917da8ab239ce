// Bodies, and what a script or a list has beside them, as steps of a reading that stands behind a skip: it knows the byte there. The leaves are
// `reading_matchers`. Definitions: specs/, from document 01, 'Reading'.
#![tactic(auto)]

ghost use Rattle.std.specs.Prelude.{◌≡◌};
ghost use Rattle.reading_bodies.specs.Bodies.{end_behind, name_to, node_at, script_at, parent_at};
ghost use Rattle.reading_bodies.specs.Bodies.{node_end, sole_end, inside_body, body_at, sole_at, list_at};

use linker_script::byte_at;
use linker_script::searching::find;
use numbers::Refusal;
use reading_cursors::places::Place;
use reading_cursors::{Cursor, Event, Step, move_to, refuse, skip_at, with_section};
use reading_matchers::parse_matcher;
use reading_tokens::{parse_token, try_take};

// A node's name from p to q.
fn name_to(c: Cursor, p: usize, q: usize) -> Step
    ensures { result ≡ name_to c p q }
{
    if q <= p {
        return refuse(Refusal::Unreadable, p);
    }
    let event = Event::Node {
        start: p,
        len: q - p,
    };
    Ok(Some((event, move_to(c, Place::AtBody, q))))
}

// Between nodes: the end, or a name.
pub fn node_at(c: Cursor, s: &[u8], p: usize) -> Step
    ensures { result ≡ node_at c s.now p }
{
    if p == s.len() {
        return Ok(None);
    }
    name_to(c, p, parse_token(s, p))
}

pub fn script_at(c: Cursor, s: &[u8], p: usize) -> Step
    ensures { result ≡ script_at c s.now p }
{
    if byte_at(s, p) == b'{' {
        return Ok(Some((Event::Body, move_to(c, Place::InSole, p + 1))));
    }
    node_at(c, s, p)
}

// The parent text from p to the `;` that was found.
fn parent_at(c: Cursor, s: &[u8], p: usize) -> Step
    ensures { result ≡ parent_at c s.now p }
{
    let Some(q) = find(s, b';', p) else {
        return refuse(Refusal::Unreadable, p);
    };
    let event = Event::Parent {
        start: p,
        len: q - p,
    };
    Ok(Some((event, move_to(c, Place::AtNode, q + 1))))
}

// Behind the `}` of a named node's body.
fn node_end(c: Cursor, s: &[u8], p: usize) -> Step
    ensures { result ≡ node_end c s.now p }
{
    let q = skip_at(c, s, p)?;
    parent_at(with_section(c, 0), s, q)
}

// Behind the last `;` of a script or a list: skip, end.
fn end_behind(c: Cursor, s: &[u8], p: usize) -> Step
    ensures { result ≡ end_behind c s.now p }
{
    let q = skip_at(c, s, p)?;
    if q == s.len() {
        return Ok(None);
    }
    refuse(Refusal::Unreadable, q)
}

// Behind the `}` of the one body of a script.
fn sole_end(c: Cursor, s: &[u8], p: usize) -> Step
    ensures { result ≡ sole_end c s.now p }
{
    let q = skip_at(c, s, p)?;
    if byte_at(s, q) == b';' {
        return end_behind(c, s, q + 1);
    }
    refuse(Refusal::Unreadable, q)
}

// In a body, not at its `}`. Always inlined, for the reason that `reading_matchers` gives.
#[inline(always)]
fn inside_body(c: Cursor, s: &[u8], inner: Place, p: usize) -> Step
    ensures { result ≡ inside_body c s.now inner p }
{
    if try_take(s, b"global:", p) {
        let next = move_to(with_section(c, 0), c.place, p + 7);
        return Ok(Some((Event::Section(0), next)));
    }
    if try_take(s, b"local:", p) {
        let next = move_to(with_section(c, 1), c.place, p + 6);
        return Ok(Some((Event::Section(1), next)));
    }
    parse_matcher(c, s, inner, c.place, p)
}

pub fn body_at(c: Cursor, s: &[u8], p: usize) -> Step
    ensures { result ≡ body_at c s.now p }
{
    if byte_at(s, p) == b'}' {
        return node_end(c, s, p + 1);
    }
    inside_body(c, s, Place::InBodyExtern, p)
}

pub fn sole_at(c: Cursor, s: &[u8], p: usize) -> Step
    ensures { result ≡ sole_at c s.now p }
{
    if byte_at(s, p) == b'}' {
        return sole_end(c, s, p + 1);
    }
    inside_body(c, s, Place::InSoleExtern, p)
}

pub fn list_at(c: Cursor, s: &[u8], p: usize) -> Step
    ensures { result ≡ list_at c s.now p }
{
    if try_take(s, b"};", p) {
        return end_behind(c, s, p + 2);
    }
    parse_matcher(c, s, Place::InListExtern, Place::InList, p)
}
