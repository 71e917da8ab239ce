// What is kept of a glob token, byte after byte: each `[^` becomes `[!`, and then a run of stars outside brackets one star (pattern/specs/Storing.antt).
ghost use Rattle.std.specs.Prelude.{◌≡◌, ◌+◌, ◌<◌, ◌≤◌, leb, length, drop};
ghost use Rattle.lists.specs.Same.{same};
ghost use Rattle.pattern.specs.Storing.{stored};
ghost use Rattle.storing.specs.Answers.{Copies};
ghost use Rattle.storing.specs.Post.{at_start, bracket_more, kept_from, kept_step, pair, plain, put_by};

use crate::copy;
use numbers::Edition;
use pattern::bracket::{between_length, mark_at};

// Whether storing can change a byte behind another: the second of `**`, or that of `[^`.
fn is_pair(before: u8, c: u8) -> bool
    ensures { result ≡ pair before c }
{
    match c {
        b'*' => before == b'*',
        b'^' => before == b'[',
        _ => false,
    }
}

// Whether no two bytes of a token are such a pair. Most tokens have none, and are kept as they stand, wherever their brackets are.
fn is_plain(token: &[u8]) -> bool
    ensures { result ≡ plain token.now }
{
    let mut before = 0;
    for c in token {
        if is_pair(before, *c) {
            return false;
        }
        before = *c;
    }
    true
}

// Where a walk over a token stands: how many bytes are left of the bracket that it is in, whether a star outside brackets stands just before, and whether a `[`
// does.
#[derive(Clone, Copy)]
pub struct Walk {
    pub left: usize,
    pub starred: bool,
    pub opened: bool,
}

// What becomes of a byte: what is put for it, unless it is dropped, and where the walk stands behind it.
#[derive(Clone, Copy)]
pub struct Step {
    pub put: Option<u8>,
    pub then: Walk,
}

fn start() -> Walk
    ensures { result ≡ at_start }
{
    Walk {
        left: 0,
        starred: false,
        opened: false,
    }
}

// How many bytes the bracket takes behind its `[`, with its `]`; one that is not closed counts a byte more than there are.
fn bracket_length(edition: Edition, token: &[u8], i: usize) -> usize
    requires { i < length token.now }
    ensures { result ≡ bracket_more edition (drop (i + 1) token.now) }
{
    let at = i + 1;
    let mark = mark_at(token, at, true);
    mark + between_length(edition, token, at + mark) + 1
}

// A byte that stays, with some bytes of its element left behind it.
fn stays(put: u8, left: usize, opened: bool) -> Step
    ensures { result ≡ kept_step put left opened }
{
    Step {
        put: Some(put),
        then: Walk {
            left,
            starred: false,
            opened,
        },
    }
}

fn step_at(edition: Edition, token: &[u8], i: usize, w: Walk) -> Step
    requires { i < length token.now }
    ensures { kept_from edition w (drop i token.now) ≡ put_by result (kept_from edition result.then (drop (i + 1) token.now)) }
{
    let c = token[i];
    let put = super::with_negation(w.opened, c);
    let opened = c == b'[';
    if w.left != 0 {
        return stays(put, w.left - 1, opened);
    }
    if c == b'*' {
        return Step {
            put: (!w.starred).then_some(put),
            then: Walk {
                left: 0,
                starred: true,
                opened,
            },
        };
    }
    if opened {
        let left = bracket_length(edition, token, i);
        return stays(put, left, opened);
    }
    stays(put, 0, opened)
}

fn kept_length(edition: Edition, token: &[u8]) -> usize
    ensures { result ≡ length (stored edition token.now) }
{
    let mut w = start();
    let mut n = 0;
    for i in 0..token.len() {
        let step = step_at(edition, token, i, w);
        w = step.then;
        if step.put.is_some() {
            n += 1;
        }
    }
    n
}

// Whether there is room for what is kept of a token. It is no longer than the token, so that it is counted only where the token itself has no room.
pub fn has_room(edition: Edition, token: &[u8], room: usize) -> bool
    ensures { result ≡ leb (length (stored edition token.now)) room }
{
    token.len() <= room || kept_length(edition, token) <= room
}

// Puts what is kept of a token at the front of a buffer that has room for it, and answers how many bytes that are.
pub fn copy_kept(edition: Edition, token: &[u8], out: &mut [u8]) -> usize
    requires { length (stored edition token.now) ≤ length out.old }
    ensures { Copies (stored edition token.now) out.old result out.new }
{
    if is_plain(token) {
        copy(token, out);
        return token.len();
    }
    let mut w = start();
    let mut n = 0;
    for i in 0..token.len() {
        let s = step_at(edition, token, i, w);
        w = s.then;
        let Some(c) = s.put else {
            continue;
        };
        out[n] = c;
        n += 1;
    }
    n
}

// Whether storing leaves the bytes of a glob as they are: no `[^` stands among them, and outside brackets no run of stars.
pub fn is_as_stored(edition: Edition, glob: &[u8]) -> bool
    ensures { result ≡ same (stored edition glob.now) glob.now }
{
    if is_plain(glob) {
        return true;
    }
    let mut w = start();
    for i in 0..glob.len() {
        let here = step_at(edition, glob, i, w);
        if here.put != Some(glob[i]) {
            return false;
        }
        w = here.then;
    }
    true
}
