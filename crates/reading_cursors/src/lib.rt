// Where a reading stands, what a step of it answers, a cursor's moves, and the places of the grammar (`places`). Definitions: specs/Moves.antt and
// specs/Places.antt. `move_to`, `with_section` and `with_language` are leaves of the reader.
#![tactic(auto)]

ghost use Rattle.std.specs.Prelude.{◌≡◌};
ghost use Rattle.reading_cursors.specs.Moves.{in_language, in_section, moved, or_unclosed, refused_at, skip_at, start};

use crate::places::Place;
use linker_script::comments::skip_comments_and_whitespace;
use numbers::{Edition, Refusal};

pub mod places;

// Where a reading stands: the place in the text, the section and language that a line there gets, the place in the grammar, and the edition in which it is
// read. Fields lie in this order: the two of one byte are last, as each gap between fields is copied in pieces of its own.
#[derive(Clone, Copy)]
pub struct Cursor {
    pub at: usize,
    pub section: u32,
    pub language: u32,
    pub place: Place,
    pub edition: Edition,
}

#[derive(Clone, Copy)]
pub enum Event {
    // A named node begins.
    Node {
        start: usize,
        len: usize,
    },
    // A body, or an export list, opens.
    Body,
    // `global:` or `local:`.
    Section(u32),
    // An extern block opens, and closes.
    Extern {
        section: u32,
        language: u32,
    },
    Closed,
    // A line: its token, trimmed.
    Line {
        section: u32,
        language: u32,
        start: usize,
        len: usize,
    },
    // A named node ends: its parent text.
    Parent {
        start: usize,
        len: usize,
    },
}

// Why a text is refused, and the place at which the rule began that failed.
#[derive(Clone, Copy, Debug, PartialEq, Eq)]
pub struct RefusedAt {
    pub refusal: Refusal,
    pub place: usize,
}

// A step of a reading: an event and the cursor behind it, or the end.
pub type Step = Result<Option<(Event, Cursor)>, RefusedAt>;

// A reading starts at the text's first byte, at a place of the grammar.
pub fn start_at(edition: Edition, place: Place) -> Cursor
    ensures { result ≡ start edition place }
{
    Cursor {
        at: 0,
        place,
        section: 0,
        language: 0,
        edition,
    }
}

pub fn move_to(c: Cursor, place: Place, at: usize) -> Cursor
    ensures { result ≡ moved c place at }
{
    Cursor { at, place, ..c }
}

pub fn with_section(c: Cursor, section: u32) -> Cursor
    ensures { result ≡ in_section c section }
{
    Cursor { section, ..c }
}

pub fn with_language(c: Cursor, language: u32) -> Cursor
    ensures { result ≡ in_language c language }
{
    Cursor { language, ..c }
}

pub fn refuse(refusal: Refusal, place: usize) -> Step
    ensures { result ≡ refused_at refusal place }
{
    Err(RefusedAt { refusal, place })
}

// A skip from a place on, in the cursor's edition.
pub fn skip_at(c: Cursor, s: &[u8], at: usize) -> Result<usize, RefusedAt>
    ensures { result ≡ or_unclosed (skip_at c s.now at) }
{
    skip_comments_and_whitespace(c.edition, s, at).map_err(|place| RefusedAt {
        refusal: Refusal::Unclosed,
        place,
    })
}
