// What each event of a reading makes of a book in lent buffers. Definitions: specs/Building.antt and specs/State.antt, from document 01, 'Reading', 'The book'
// and 'Numbers that say no', and document 02, request 02. `take_node` and `take_parent` are for a caller who knows how far the book is. A line is taken in
// `lines`, and whichever event it is in `events`.
#![tactic(auto)]

ghost use Rattle.std.specs.Prelude.{◌≡◌, true, ◌*◌, ◌≤◌, ◌<◌, length};
ghost use Rattle.numbers.specs.Limits.{node_limit, script_limit};
ghost use Rattle.packing.specs.Tables.{packs};
ghost use Rattle.book.specs.Layout.{node_form};
ghost use Rattle.book.specs.View.{any_node};
ghost use Rattle.book_building.specs.Building.{mixed_in_block};
ghost use Rattle.book_building.specs.State.{Cleared, TookNode, TookParent, four, inside_block, outside_block};

use book::NODE_WIDTH;
use book::nodes::first_named;
use copying::{put_bytes, put_three};
use numbers::{GLOBAL, NO_ROOM, NODE_LIMIT, UNKNOWN_PARENT};
use packing::{clear_bytes, clear_numbers};

pub mod events;
pub mod lines;

// How far a book is while its text is read: how many nodes, name bytes, lines and pool bytes it has; whether the reading is in an extern block; whether the
// globals have what the Rust kind's have not; and whether a bare `*;` stands among the locals.
#[derive(Clone, Copy)]
pub struct Progress {
    pub nodes: usize,
    pub names: usize,
    pub lines: usize,
    pub pool: usize,
    pub inside: bool,
    pub mixed: bool,
    pub starred: bool,
}

// What an event makes of it, or the number that says no and the place.
#[derive(Clone, Copy)]
pub enum Taking {
    On(Progress),
    No(u32, usize),
}

// Zeros in the buffers that an opening fills.
pub fn clear_book(nodes: &mut [u32], names: &mut [u8], lines: &mut [u32], pool: &mut [u8])
    ensures { Cleared (four nodes.old names.old lines.old pool.old)
        (four nodes.new names.new lines.new pool.new) }
{
    clear_numbers(nodes);
    clear_bytes(names);
    clear_numbers(lines);
    clear_bytes(pool);
}

// A named node begins.
pub fn take_node(g: Progress, p: usize, name: &[u8], nodes: &mut [u32], names: &mut [u8]) -> Taking
    requires { (g.names ≤ length names.old) × (g.names ≤ script_limit * node_limit) × (length name.now ≤ script_limit) }
    ensures { TookNode g p name.now nodes.old names.old result nodes.new names.new }
{
    let n = g.nodes;
    let m = g.names;
    if NODE_LIMIT <= n {
        return Taking::No(NO_ROOM, p);
    }
    if nodes.len() / NODE_WIDTH <= n {
        return Taking::No(NO_ROOM, p);
    }
    if names.len() - m < name.len() {
        return Taking::No(NO_ROOM, p);
    }
    put_three(nodes, NODE_WIDTH * n, m as u32, name.len() as u32, 0);
    put_bytes(names, m, name);
    Taking::On(Progress {
        nodes: n + 1,
        names: m + name.len(),
        ..g
    })
}

// Whether the globals have what the Rust kind's have not, behind an extern block in that section.
fn mixed_in_block(g: Progress, section: u32) -> bool
    ensures { result ≡ mixed_in_block g.mixed section }
{
    g.mixed || section == GLOBAL
}

// An extern block opens.
pub fn take_extern(g: Progress, section: u32) -> Progress
    ensures { result ≡ inside_block g section }
{
    Progress {
        inside: true,
        mixed: mixed_in_block(g, section),
        ..g
    }
}

// And closes.
pub fn take_closed(g: Progress) -> Progress
    ensures { result ≡ outside_block g }
{
    Progress { inside: false, ..g }
}

// A named node ends.
pub fn take_parent(g: Progress, p: usize, parent: &[u8], nodes: &mut [u32], names: &[u8]) -> Taking
    requires { (packs node_form any_node g.nodes g.names nodes.old names.now ≡ true) × (0 < g.nodes) × (g.nodes ≤ node_limit) }
    ensures { TookParent g p parent.now nodes.old names.now result nodes.new }
{
    if parent.len() == 0 {
        return Taking::On(g);
    }
    let n = g.nodes;
    let i = n - 1;
    match first_named(nodes, names, n, g.names, parent) {
        None => Taking::No(UNKNOWN_PARENT, p),
        Some(q) => {
            if i <= q {
                return Taking::No(UNKNOWN_PARENT, p);
            }
            nodes[NODE_WIDTH * i + 2] = q as u32;
            Taking::On(g)
        }
    }
}
