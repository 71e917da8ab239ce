// The globals of a book of the Rust kind. Definitions: crate lookups, specs/Lookups.antt.
ghost use Rattle.std.specs.Prelude.{◌≡◌, true};
ghost use Rattle.packing.specs.Tables.{packs, things};
ghost use Rattle.book.specs.Layout.{frame_of, line_form};
ghost use Rattle.book.specs.Sanity.{line_ok};
ghost use Rattle.ranking.specs.Walk.{first_line};
ghost use Rattle.lookups.specs.Lookups.{listed_as};

use book::codes::section_of;
use book::rows::line_bytes;
use book::{Counts, LINE_WIDTH};
use numbers::GLOBAL;
use packing::same_bytes;

// The number of the first global line that has the name's bytes.
pub fn first_listed(c: Counts, lines: &[u32], pool: &[u8], name: &[u8]) -> Option<usize>
    requires { packs line_form (line_ok (frame_of c)) c.lines c.pool lines.now pool.now ≡ true }
    ensures { result ≡ first_line (listed_as name.now) 0 (things line_form c.lines lines.now pool.now) }
{
    for i in 0..c.lines as usize {
        if section_of(lines[LINE_WIDTH * i + 1]) != GLOBAL {
            continue;
        }
        if same_bytes(line_bytes(lines, pool, i), name) {
            return Some(i);
        }
    }
    None
}
