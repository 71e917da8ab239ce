// One event of a text that is added to an export list in lent buffers. Definitions: trial/specs/Symbols.antt (`add_event`), from document 01, 'The book'. It
// is for a caller who knows the book.
ghost use Rattle.std.specs.Prelude.{◌≡◌, true, ◌<◌};
ghost use Rattle.book.specs.Layout.{five};
ghost use Rattle.book.specs.View.{laid};
ghost use Rattle.book_building.specs.Events.{Lies};
ghost use Rattle.trial.specs.Changes.{Makes};
ghost use Rattle.trial.specs.Symbols.{add_event};

use book::Counts;
use numbers::GLOBAL;
use reading_cursors::Event;
use trial_add::adding::append;

// One event: a line is added, anything else changes nothing.
pub fn add_event(
    c: Counts,
    nodes: &[u32],
    names: &[u8],
    lines: &mut [u32],
    pool: &mut [u8],
    journal: &mut [u32],
    s: &[u8],
    e: Event,
) -> Result<Counts, u32>
    requires { (laid c (five nodes.now names.now lines.old pool.old journal.old) ≡ true)
        × (0 < c.nodes) × Lies s.now e }
    ensures { Makes c (five nodes.now names.now lines.old pool.old journal.old)
        (λ b w. add_event b s.now w e)
        result (five nodes.now names.now lines.new pool.new journal.new) }
{
    match e {
        Event::Node { start: _, len: _ } => Ok(c),
        Event::Body => Ok(c),
        Event::Section(_) => Ok(c),
        Event::Extern {
            section: _,
            language: _,
        } => Ok(c),
        Event::Closed => Ok(c),
        Event::Line {
            section: _,
            language,
            start,
            len,
        } => {
            let end = start + len;
            append(
                c,
                nodes,
                names,
                lines,
                pool,
                journal,
                0,
                GLOBAL,
                language,
                &s[start..end],
            )
        }
        Event::Parent { start: _, len: _ } => Ok(c),
    }
}
