// A line of the node that began last, in lent buffers. Definitions: specs/Building.antt and specs/State.antt, from document 01, 'Reading',
// 'The book' and 'Numbers that say no', and document 02, request 02 (its offset). `take_line` is for a caller who knows how far the book is.
ghost use Rattle.std.specs.Prelude.{◌≡◌, ◌≤◌, ◌<◌};
ghost use Rattle.numbers.specs.Limits.{node_limit, script_limit};
ghost use Rattle.numbers.specs.Marks.{cxx, local};
ghost use Rattle.book_rooms.specs.Rooms.{pool_room};
ghost use Rattle.book_building.specs.Building.{mixed_behind, starred_behind};
ghost use Rattle.book_building.specs.State.{TookLine};

use crate::{Progress, Taking};
use book::codes::code_of;
use book::editions::edition_of;
use book::rows::put_line;
use book::{Frame, REGULAR};
use book_rooms::{has_row, put_token};
use classes::class_number;
use numbers::{ALL_CLASS, EXACT_CLASS, GLOBAL, LOCAL, NO_ROOM};

// Whether the globals have what the Rust kind's have not, behind a line of that section and class.
fn mixed_behind(g: Progress, section: u32, class: u32) -> bool
    ensures { result ≡ mixed_behind g.mixed section class }
{
    if g.mixed {
        return true;
    }
    if section != GLOBAL {
        return false;
    }
    class != EXACT_CLASS
}

// Whether a bare `*;` stands among the locals, behind a line of that section and class.
fn starred_behind(g: Progress, section: u32, class: u32) -> bool
    ensures { result ≡ starred_behind g.starred g.inside section class }
{
    if g.starred {
        return true;
    }
    if section != LOCAL {
        return false;
    }
    if class != ALL_CLASS {
        return false;
    }
    !g.inside
}

// A line of the node that began last.
pub fn take_line(
    g: Progress,
    p: usize,
    section: u32,
    language: u32,
    token: &[u8],
    lines: &mut [u32],
    pool: &mut [u8],
) -> Taking
    requires { (g.pool ≤ pool_room pool.old) × (0 < g.nodes) × (g.nodes ≤ node_limit) × (section ≤ local) × (language ≤ cxx) × (p < script_limit) }
    ensures { TookLine g p section language token.now lines.old pool.old result lines.new pool.new }
{
    let n = g.lines;
    let at = g.pool;
    let frame = Frame {
        kind: REGULAR,
        nodes: g.nodes as u32,
    };
    match put_token(edition_of(frame), token, at, pool) {
        Err(no) => Taking::No(no.number(), p),
        Ok(stored) => {
            if !has_row(lines, n) {
                return Taking::No(NO_ROOM, p);
            }
            let k = class_number(stored.class);
            let node = (g.nodes - 1) as u32;
            let code = code_of(k, section, language);
            let size = stored.size as u32;
            put_line(lines, n, node, code, at as u32, size, (p + 1) as u32);
            let mixed = mixed_behind(g, section, k);
            let starred = starred_behind(g, section, k);
            Taking::On(Progress {
                nodes: g.nodes,
                names: g.names,
                lines: n + 1,
                pool: at + stored.size,
                inside: g.inside,
                mixed,
                starred,
            })
        }
    }
}
