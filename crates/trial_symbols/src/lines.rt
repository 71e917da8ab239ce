// The lines of a text added to an export list in lent buffers, "all or none". Definitions: trial/specs/Symbols.antt (`add_reading`), from document 01, 'The
// book'. It is for a caller who knows the book.
ghost use Rattle.std.specs.Prelude.{◌≡◌, true, ◌<◌};
ghost use Rattle.numbers.specs.Editions.{reld};
ghost use Rattle.reading.specs.Events.{reading};
ghost use Rattle.book.specs.Books.{export};
ghost use Rattle.book.specs.Layout.{five};
ghost use Rattle.book.specs.View.{laid};
ghost use Rattle.trial.specs.Changes.{Makes};
ghost use Rattle.trial.specs.Clearing.{Clears, Reaches};
ghost use Rattle.trial.specs.Symbols.{add_reading};

use crate::events::add_event;
use book::{Counts, EDIT_WIDTH, LINE_WIDTH};
use linker_script::last_close;
use numbers::Edition;
use packing::{clear_bytes, clear_numbers};
use reading::scripts::next_event;
use reading_cursors::places::Place;
use reading_cursors::start_at;

// What was added behind the book with the counts c, up to the counts k, is zero again.
pub fn clear_added(c: Counts, k: Counts, lines: &mut [u32], pool: &mut [u8], journal: &mut [u32])
    requires { Reaches c k lines.old pool.old journal.old }
    ensures { Clears c k lines.old pool.old journal.old lines.new pool.new journal.new }
{
    let row = LINE_WIDTH * (c.lines as usize);
    let rows = LINE_WIDTH * (k.lines as usize);
    clear_numbers(&mut lines[row..rows]);
    let byte = c.pool as usize;
    let bytes = k.pool as usize;
    clear_bytes(&mut pool[byte..bytes]);
    let edit = EDIT_WIDTH * (c.edits as usize);
    let edits = EDIT_WIDTH * (k.edits as usize);
    clear_numbers(&mut journal[edit..edits]);
}

// The lines of a text, read from a place of the grammar on.
pub fn add_lines(
    c: Counts,
    nodes: &[u32],
    names: &[u8],
    lines: &mut [u32],
    pool: &mut [u8],
    journal: &mut [u32],
    s: &[u8],
    place: Place,
) -> Result<Counts, u32>
    requires { (laid c (five nodes.now names.now lines.old pool.old journal.old) ≡ true)
        × (0 < c.nodes) × (c.kind ≡ export) }
    ensures { Makes c (five nodes.now names.now lines.old pool.old journal.old)
        (λ b w. add_reading b s.now w (reading reld place s.now))
        result (five nodes.now names.now lines.new pool.new journal.new) }
{
    let last = last_close(s);
    let mut at = start_at(Edition::Reld, place);
    let mut k = c;
    loop {
        match next_event(s, last, at) {
            Ok(None) => {
                return Ok(k);
            }
            Err(no) => {
                clear_added(c, k, lines, pool, journal);
                return Err(no.refusal.number());
            }
            Ok(Some((e, next))) => match add_event(k, nodes, names, lines, pool, journal, s, e) {
                Err(n) => {
                    clear_added(c, k, lines, pool, journal);
                    return Err(n);
                }
                Ok(d) => {
                    k = d;
                    at = next;
                }
            },
        }
    }
}
