// The element at a place of a pattern, held against a character.
ghost use Rattle.std.specs.Prelude.{◌+◌, ◌<◌, ◌≤◌, length};
ghost use Rattle.matching.specs.Post.{ElementOk, BracketAtOk};

use numbers::Edition;
use pattern::bracket::bracket_takes;

#[derive(Clone, Copy)]
pub enum ElementAt {
    // A star: the place behind it.
    Star(usize),
    // An element that takes the character: the place behind it.
    Takes(usize),
    // An element that does not, after one test; or the pattern's end, after none.
    Fails(u64),
}

// A bracket whose `[` stands just before the place `at`.
fn bracket_at(edition: Edition, p: &[u8], at: usize, x: u32) -> ElementAt
    requires { at ≤ length p.now }
    ensures { BracketAtOk edition p.now at x result }
{
    let b = bracket_takes(edition, &p[at..], x);
    if b.takes {
        ElementAt::Takes(at + b.past)
    } else {
        ElementAt::Fails(1)
    }
}

pub fn element_at(edition: Edition, p: &[u8], at: usize, x: u32) -> ElementAt
    ensures { ElementOk edition p.now at x result }
{
    if p.len() <= at {
        return ElementAt::Fails(0);
    }
    let f = utf8::character_at(p, at);
    match f.number {
        42 => ElementAt::Star(f.next),
        63 => ElementAt::Takes(f.next),
        91 => bracket_at(edition, p, f.next, x),
        c if c == x => ElementAt::Takes(f.next),
        _ => ElementAt::Fails(1),
    }
}
