// Brackets: where one closes, and whether it takes a character.
ghost use Rattle.std.specs.Prelude.{◌≡◌, ◌+◌, ◌<◌, ◌≤◌, length, drop, nat_eq};
ghost use Rattle.std.specs.List.{position_or_len};
ghost use Rattle.numbers.specs.Signs.{closing_bracket};
ghost use Rattle.lists.specs.Pieces.{pieces};
ghost use Rattle.utf8.specs.Utf8.{chars};
ghost use Rattle.pattern.specs.Patterns.{between, member, some_holds};
ghost use Rattle.pattern.specs.Post.{MemberOk, bracket_told, mark_as};

use numbers::Edition;

// How many bytes the mark of a negated bracket takes, at the place behind its `[`; a token has `^` too, which is stored as `!`.
pub fn mark_at(p: &[u8], at: usize, token: bool) -> usize
    ensures { result ≡ mark_as token (drop at p.now) }
{
    match p.get(at) {
        Some(b'!') => 1,
        Some(b'^') if token => 1,
        _ => 0,
    }
}

// How many bytes stand before the first `]`.
fn before_close(rest: &[u8]) -> usize
    ensures is { result ≡ position_or_len (λ c. nat_eq c closing_bracket) rest.now }
    ensures within { result ≤ length rest.now }
{
    rest.iter().take_while(|c| **c != b']').count()
}

// How many bytes stand between, from the place behind `[` or `[!` on: the first never closes, the next `]` does. A `]` is a byte of no longer
// character, so the bytes say what the characters do.
pub fn between_length(edition: Edition, rest: &[u8], from: usize) -> usize
    ensures { result ≡ length (between edition (drop from rest.now)) }
{
    if rest.len() <= from {
        return 0;
    }
    1 + before_close(&rest[from + 1..])
}

// Whether the member at a place takes x, and the place behind it. No Option: MemberOk tells the place of a member that takes x too.
#[derive(Clone, Copy)]
pub struct MemberAt {
    pub holds: bool,
    pub next: usize,
}

fn member_at(edition: Edition, body: &[u8], at: usize, x: u32) -> MemberAt
    requires { at < length body.now }
    ensures { MemberOk edition body.now at x result }
{
    let first = utf8::character_at(body, at);
    let second = utf8::character_at(body, first.next);
    if second.number != 45 || body.len() <= second.next {
        return MemberAt {
            holds: first.number == x,
            next: first.next,
        };
    }
    let third = utf8::character_at(body, second.next);
    MemberAt {
        holds: first.number <= x && x <= third.number,
        next: third.next,
    }
}

// Whether one of the members of what stands between takes x. A step is a member, of one character or three: no iterator of std has it.
fn has_member(edition: Edition, body: &[u8], x: u32) -> bool
    ensures { result ≡ some_holds (pieces (member edition) (chars body.now)) x }
{
    let mut at = 0;
    while at < body.len() {
        let m = member_at(edition, body, at, x);
        if m.holds {
            return true;
        }
        at = m.next;
    }
    false
}

// Whether a bracket takes a character, and the place behind its `]`. No Option: bracket_told tells the place of one that does not take it too.
#[derive(Clone, Copy)]
pub struct Bracket {
    pub takes: bool,
    pub past: usize,
}

// The bracket whose `[` stands just before `rest`, held against the character x.
pub fn bracket_takes(edition: Edition, rest: &[u8], x: u32) -> Bracket
    ensures { result ≡ bracket_told edition rest.now x }
{
    let from = mark_at(rest, 0, false);
    let end = from + between_length(edition, rest, from);
    Bracket {
        takes: has_member(edition, &rest[from..end], x) != (from == 1),
        past: end + 1,
    }
}
