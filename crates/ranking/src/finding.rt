// The line that decides a name: 01's ranking, in one pass over the rows. A line that could not win is not matched. Definitions: crate ranking,
// specs/Matching.antt and specs/Walk.antt, from document 01, 'Ranking'.
ghost use Rattle.std.specs.Prelude.{◌≡◌, true, ◌≤◌, length};
ghost use Rattle.numbers.specs.Limits.{name_limit, node_limit, token_limit};
ghost use Rattle.packing.specs.Tables.{packs, things};
ghost use Rattle.book.specs.Layout.{line_form, line_of};
ghost use Rattle.book.specs.Sanity.{line_ok};
ghost use Rattle.ranking.specs.Matching.{class_matches, line_matches, name_of};
ghost use Rattle.ranking.specs.Walk.{deciding_among};

use crate::rank_of;
use book::codes::{class_of, is_struck, language_of};
use book::editions::edition_of;
use book::rows::line_bytes;
use book::{Frame, LINE_WIDTH};
use matching::match_name;
use numbers::{ALL_CLASS, CXX, ESCAPED_CLASS, Edition};
use packing::same_bytes;

// Whether bytes of a class match a name.
fn class_matches(edition: Edition, class: u32, bytes: &[u8], name: &[u8]) -> bool
    requires { (length bytes.now ≤ token_limit) × (length name.now ≤ name_limit) }
    ensures { result ≡ class_matches edition class bytes.now name.now }
{
    if class <= ESCAPED_CLASS {
        return same_bytes(bytes, name);
    }
    if class == ALL_CLASS {
        return true;
    }
    let tried = match_name(edition, bytes, name);
    tried.matched
}

// Whether a line with that code and those bytes matches: a C++ line the demangled name, others the raw one, a struck line none.
fn line_matches(edition: Edition, code: u32, bytes: &[u8], raw: &[u8], demangled: &[u8]) -> bool
    requires { (length bytes.now ≤ token_limit) × (length raw.now ≤ name_limit) × (length demangled.now ≤ name_limit) }
    ensures { result ≡ line_matches edition (name_of raw.now demangled.now) (line_of 0 code bytes.now) }
{
    if is_struck(code) {
        return false;
    }
    let class = class_of(code);
    if language_of(code) == CXX {
        return class_matches(edition, class, bytes, demangled);
    }
    class_matches(edition, class, bytes, raw)
}

// The number of the deciding line among n lines, whose bytes end at p of the pool, in a book with that frame.
pub fn find_match(
    frame: Frame,
    lines: &[u32],
    pool: &[u8],
    n: usize,
    p: usize,
    raw: &[u8],
    demangled: &[u8],
) -> Option<usize>
    requires { (packs line_form (line_ok frame) n p lines.now pool.now ≡ true) × (frame.nodes ≤ node_limit)
        × (length raw.now ≤ name_limit) × (length demangled.now ≤ name_limit) }
    ensures { result ≡ deciding_among frame (name_of raw.now demangled.now)
        (things line_form n lines.now pool.now) }
{
    let edition = edition_of(frame);
    let mut best = 10 * frame.nodes;
    let mut line = None;
    for i in 0..n {
        let row = LINE_WIDTH * i;
        let code = lines[row + 1];
        let rank = rank_of(frame.nodes, lines[row], code);
        if best <= rank {
            continue;
        }
        if line_matches(edition, code, line_bytes(lines, pool, i), raw, demangled) {
            best = rank;
            line = Some(i);
        }
    }
    line
}
