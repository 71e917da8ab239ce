// The events of a reading, one by one, and what is answered behind the last.
ghost use Rattle.std.specs.Prelude.{◌≡◌, ◌*◌, ◌≤◌, length};
ghost use Rattle.numbers.specs.Limits.{line_limit, node_limit, pool_limit, script_limit};
ghost use Rattle.book.specs.Layout.{node_width};
ghost use Rattle.book_building.specs.State.{AllClear, four};
ghost use Rattle.book_opening.specs.Opening.{declined, kind_of, told};
ghost use Rattle.book_opening.specs.State.{Builds, Finished, Opens};

use crate::{Built, How, Opened};
use book::{Counts, EXPORT, NODE_WIDTH, REGULAR, RUST, no_counts};
use book_building::events::take_event;
use book_building::{Progress, Taking, clear_book};
use linker_script::last_close;
use numbers::{Edition, NO_ROOM, SCRIPT_LIMIT, TOO_LONG};
use reading::scripts::next_event;
use reading_cursors::places::Place;
use reading_cursors::start_at;

fn refused(refusal: u32, place: usize) -> Opened
    ensures { result ≡ told (declined refusal place) }
{
    Opened {
        refusal,
        place,
        counts: no_counts(),
    }
}

fn kind_of(place: Place, g: Progress) -> u32
    ensures { result ≡ kind_of place g.nodes g.starred g.mixed }
{
    if place == Place::AtList {
        return EXPORT;
    }
    if g.nodes != 1 {
        return REGULAR;
    }
    if !g.starred {
        return REGULAR;
    }
    if g.mixed {
        return REGULAR;
    }
    RUST
}

// The counts of a book whose text has ended.
fn finished(place: Place, g: Progress) -> Counts
    requires { (g.nodes ≤ node_limit) × (g.names ≤ script_limit * node_limit) × (g.lines ≤ line_limit) × (g.pool ≤ pool_limit) }
    ensures { Finished place g result }
{
    Counts {
        kind: kind_of(place, g),
        nodes: g.nodes as u32,
        names: g.names as u32,
        lines: g.lines as u32,
        pool: g.pool as u32,
        edits: 0,
    }
}

// The events of a text, from a place of the grammar on, into cleared buffers.
fn build(
    place: Place,
    s: &[u8],
    nodes: &mut [u32],
    names: &mut [u8],
    lines: &mut [u32],
    pool: &mut [u8],
) -> Built
    requires { (length s.now ≤ script_limit) × (node_width ≤ length nodes.old) × AllClear (four nodes.old names.old lines.old pool.old) }
    ensures { Builds place (four nodes.old names.old lines.old pool.old) s.now
        result (four nodes.new names.new lines.new pool.new) }
{
    let last = last_close(s);
    let mut c = start_at(Edition::Reld, place);
    let mut g = Progress {
        nodes: 1,
        names: 0,
        lines: 0,
        pool: 0,
        inside: false,
        mixed: false,
        starred: false,
    };
    loop {
        match next_event(s, last, c) {
            Ok(None) => {
                return Built::Done(finished(place, g));
            }
            Err(no) => {
                return Built::Refused(no.refusal.number(), no.place);
            }
            Ok(Some((e, d))) => match take_event(s, e, g, nodes, names, lines, pool) {
                Taking::No(n, p) => {
                    return Built::Refused(n, p);
                }
                Taking::On(h) => {
                    g = h;
                    c = d;
                }
            },
        }
    }
}

// What is answered: "opening starts with 1 and row 0's room", and what is refused leaves nothing.
pub(crate) fn fill(
    how: How,
    s: &[u8],
    nodes: &mut [u32],
    names: &mut [u8],
    lines: &mut [u32],
    pool: &mut [u8],
) -> Opened
    requires { AllClear (four nodes.old names.old lines.old pool.old) }
    ensures { Opens how (four nodes.old names.old lines.old pool.old) s.now
        result (four nodes.new names.new lines.new pool.new) }
{
    if SCRIPT_LIMIT < s.len() {
        return refused(TOO_LONG, 0);
    }
    if nodes.len() < NODE_WIDTH {
        return refused(NO_ROOM, 0);
    }
    match build(how.place, s, nodes, names, lines, pool) {
        Built::Done(counts) => Opened {
            refusal: 0,
            place: 0,
            counts,
        },
        Built::Refused(n, p) => {
            clear_book(nodes, names, lines, pool);
            refused(n, p)
        }
    }
}
