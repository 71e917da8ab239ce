// What is refused of a pattern: bytes that are not UTF-8, or a bracket that is not closed. It is asked of the bytes that are, or will be, stored. Of a token
// these are not written yet, so the walk reads a `^` behind `[` as the `!` that it becomes; runs of stars close no bracket and open none.
#![tactic(auto)]

ghost use Rattle.std.specs.Prelude.{◌≡◌, false, ◌≤◌, length};
ghost use Rattle.utf8.specs.Utf8.{chars};
ghost use Rattle.pattern.specs.Patterns.{refusal, shape_refusal};
ghost use Rattle.pattern.specs.Storing.{read_as};
ghost use Rattle.pattern_check.specs.Post.{ClosingOk, chars_as};

use numbers::{Edition, Refusal};
use pattern::bracket::{between_length, mark_at};

// Where the bracket closes whose `[` stands just before a place: the place behind its `]`, if it does.
fn closing_of(edition: Edition, p: &[u8], at: usize, token: bool) -> Option<usize>
    requires { at ≤ length p.now }
    ensures { ClosingOk edition p.now at token result }
{
    let from = at + mark_at(p, at, token);
    let end = from + between_length(edition, p, from);
    if p.len() <= end { None } else { Some(end + 1) }
}

// Whether the brackets are closed.
fn shape_refusal(edition: Edition, p: &[u8], token: bool) -> Result<(), Refusal>
    ensures { result ≡ shape_refusal edition (chars_as token false (chars p.now)) }
{
    let mut at = 0;
    while at < p.len() {
        let f = utf8::character_at(p, at);
        if f.number != 91 {
            at = f.next;
            continue;
        }
        let Some(behind) = closing_of(edition, p, f.next, token) else {
            return Err(Refusal::BadPattern);
        };
        at = behind;
    }
    Ok(())
}

// What refuses the pattern; `token` says that p is a token that is still to be stored.
pub fn pattern_refusal(edition: Edition, p: &[u8], token: bool) -> Result<(), Refusal>
    ensures { result ≡ refusal edition (read_as edition token p.now) }
{
    if !utf8::is_utf8(p) {
        return Err(Refusal::GlobNotUtf8);
    }
    shape_refusal(edition, p, token)
}
