// The reader that holds the script and its place: thin functions over `next_event`, and one with plain parameters that goes through them, `step`, for
// who reads a text by it.
#![tactic(auto)]

ghost use Rattle.std.specs.Prelude.{◌≡◌};
ghost use Rattle.linker_script.specs.Finding.{last_close};
ghost use Rattle.reading.specs.Scripts.{next};

use reading::scripts::next_event;
use reading_cursors::{Cursor, Step};

// A text, the place from which on it has no `};`, and where its reading stands.
#[derive(Clone, Copy)]
pub struct Reader<'a> {
    pub text: &'a [u8],
    pub last: usize,
    pub cursor: Cursor,
}

pub fn new<'a>(text: &'a [u8], last: usize, cursor: Cursor) -> Reader<'a>
    ensures { (result.text ≡ text.entry) × (result.last ≡ last) × (result.cursor ≡ cursor) }
{
    Reader { text, last, cursor }
}

// The next event of the text, or its end, or its refusal.
pub fn next<'a>(r: Reader<'a>) -> Step
    requires { r.last ≡ last_close r.text.now }
    ensures { result ≡ next r.entry.text.now r.entry.cursor }
{
    next_event(r.text, r.last, r.cursor)
}

// The same of a text and a cursor, through a reader that holds them.
pub fn step(text: &[u8], last: usize, cursor: Cursor) -> Step
    requires { last ≡ last_close text.now }
    ensures { result ≡ next text.now cursor }
{
    next(new(text, last, cursor))
}
