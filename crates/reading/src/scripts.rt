// Scripts, export lists and texts of `add_symbol`: the step of a reading at each of its places.
ghost use Rattle.std.specs.Prelude.{◌≡◌};
ghost use Rattle.linker_script.specs.Finding.{last_close};
ghost use Rattle.reading.specs.Scripts.{next, opening_at};

use linker_script::byte_at;
use numbers::{Refusal, SCRIPT_LIMIT, TOKEN_LIMIT};
use reading_bodies::{body_at, list_at, node_at, script_at, sole_at};
use reading_cursors::places::Place;
use reading_cursors::{Cursor, Event, Step, move_to, refuse, skip_at};
use reading_matchers::{in_bare, in_extern, parse_bare_matcher, parse_matcher};

// The `{` of a body or a list.
fn opening_at(c: Cursor, s: &[u8], place: Place) -> Step
    ensures { result ≡ opening_at c s.now place }
{
    let p = skip_at(c, s, c.at)?;
    if byte_at(s, p) == b'{' {
        return Ok(Some((Event::Body, move_to(c, place, p + 1))));
    }
    refuse(Refusal::Unreadable, p)
}

// The next event of a text, or its end, or its refusal. `last` is the place from which on the text has no `};`: who opens a reading asks it once.
pub fn next_event(s: &[u8], last: usize, c: Cursor) -> Step
    requires { last ≡ last_close s.now }
    ensures { result ≡ next s.now c }
{
    match c.place {
        Place::AtScript | Place::AtList if SCRIPT_LIMIT < s.len() => refuse(Refusal::TooLong, 0),
        Place::AtSymbol | Place::AtBare if TOKEN_LIMIT < s.len() => refuse(Refusal::TooLong, 0),
        Place::AtScript => script_at(c, s, skip_at(c, s, c.at)?),
        Place::AtNode => node_at(c, s, skip_at(c, s, c.at)?),
        Place::AtBody => opening_at(c, s, Place::InBody),
        Place::InBody => body_at(c, s, skip_at(c, s, c.at)?),
        Place::InBodyExtern => in_extern(c, last, s, Place::InBody),
        Place::InSole => sole_at(c, s, skip_at(c, s, c.at)?),
        Place::InSoleExtern => in_extern(c, last, s, Place::InSole),
        Place::AtList => opening_at(c, s, Place::InList),
        Place::InList => list_at(c, s, skip_at(c, s, c.at)?),
        Place::InListExtern => in_extern(c, last, s, Place::InList),
        Place::AtSymbol => parse_matcher(c, s, Place::InSymbolExtern, Place::BehindSymbol, 0),
        Place::InSymbolExtern => in_extern(c, last, s, Place::BehindSymbol),
        Place::AtBare => parse_bare_matcher(c, s, Place::InBareExtern, Place::BehindSymbol),
        Place::InBareExtern => in_bare(c, last, s, Place::BehindSymbol),
        Place::BehindSymbol => Ok(None),
    }
}
