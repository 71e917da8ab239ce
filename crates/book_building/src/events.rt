// An event of a reading, whichever it is, taken into a book in lent buffers. Definitions: specs/Building.antt (`take_event`), from document
// 01, 'Reading', 'The book' and 'Numbers that say no'. It is for a caller who knows how far the book is.
ghost use Rattle.std.specs.Prelude.{◌≡◌, true, ◌+◌, ◌*◌, ◌≤◌, ◌<◌, length};
ghost use Rattle.linker_script.specs.Parts.{part};
ghost use Rattle.numbers.specs.Limits.{node_limit, script_limit};
ghost use Rattle.numbers.specs.Marks.{cxx, local};
ghost use Rattle.packing.specs.Tables.{packs};
ghost use Rattle.book.specs.Layout.{node_form};
ghost use Rattle.book.specs.View.{any_node};
ghost use Rattle.book_rooms.specs.Rooms.{pool_room};
ghost use Rattle.book_building.specs.State.{TookEvent, TookLine, TookNode, TookParent, built, four};
ghost use Rattle.book_building.specs.Events.{Lies};

use crate::lines::take_line;
use crate::{Progress, Taking, take_closed, take_extern, take_node, take_parent};
use reading_cursors::Event;

// A named node begins, with the part of the text that is its name.
fn node_begins(
    s: &[u8],
    p: usize,
    n: usize,
    g: Progress,
    nodes: &mut [u32],
    names: &mut [u8],
) -> Taking
    requires { (p + n ≤ length s.now) × (length s.now ≤ script_limit) × (g.names ≤ length names.old) × (g.names ≤ script_limit * node_limit) }
    ensures { TookNode g p (part s.now p n) nodes.old names.old result nodes.new names.new }
{
    let end = p + n;
    take_node(g, p, &s[p..end], nodes, names)
}

// A line, with the part that is its token.
fn line_stands(
    s: &[u8],
    p: usize,
    n: usize,
    section: u32,
    language: u32,
    g: Progress,
    lines: &mut [u32],
    pool: &mut [u8],
) -> Taking
    requires { (p + n ≤ length s.now) × (g.pool ≤ pool_room pool.old) × (0 < g.nodes) × (g.nodes ≤ node_limit)
        × (section ≤ local) × (language ≤ cxx) × (p < script_limit) }
    ensures { TookLine g p section language (part s.now p n) lines.old pool.old
        result lines.new pool.new }
{
    let end = p + n;
    take_line(g, p, section, language, &s[p..end], lines, pool)
}

// A named node ends, with the part that names its parent.
fn node_ends(s: &[u8], p: usize, n: usize, g: Progress, nodes: &mut [u32], names: &[u8]) -> Taking
    requires { (p + n ≤ length s.now) × (packs node_form any_node g.nodes g.names nodes.old names.now ≡ true)
        × (0 < g.nodes) × (g.nodes ≤ node_limit) }
    ensures { TookParent g p (part s.now p n) nodes.old names.now result nodes.new }
{
    let end = p + n;
    take_parent(g, p, &s[p..end], nodes, names)
}

// One event.
pub fn take_event(
    s: &[u8],
    e: Event,
    g: Progress,
    nodes: &mut [u32],
    names: &mut [u8],
    lines: &mut [u32],
    pool: &mut [u8],
) -> Taking
    requires { (built g (four nodes.old names.old lines.old pool.old) ≡ true) × (length s.now ≤ script_limit) × Lies s.now e }
    ensures { TookEvent g s.now e (four nodes.old names.old lines.old pool.old)
        result (four nodes.new names.new lines.new pool.new) }
{
    match e {
        Event::Node { start, len } => node_begins(s, start, len, g, nodes, names),
        Event::Body => Taking::On(g),
        Event::Section(_) => Taking::On(g),
        Event::Extern { section, language } => Taking::On(take_extern(g, section)),
        Event::Closed => Taking::On(take_closed(g)),
        Event::Line {
            section,
            language,
            start,
            len,
        } => line_stands(s, start, len, section, language, g, lines, pool),
        Event::Parent { start, len } => node_ends(s, start, len, g, nodes, names),
    }
}
