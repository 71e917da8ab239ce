// A line's place in 01's ranking, as one number, and what is asked of a name before it is looked up. The search for the line that decides stands in
// `finding`. Definitions: specs/Matching.antt, specs/Walk.antt, specs/Ranks.antt and specs/Names.antt, from document 01, 'Ranking'; that no offset is
// seen: specs/Offsets.antt, from document 02, request 02.
#![tactic(auto)]

ghost use Rattle.std.specs.Prelude.{◌≡◌, [], ◌≤◌, ◌<◌};
ghost use Rattle.numbers.specs.Limits.{node_limit};
ghost use Rattle.book.specs.Layout.{line_of};
ghost use Rattle.ranking.specs.Ranks.{rank};

use book::codes::{class_of, language_of, section_of};
use numbers::{ESCAPED_CLASS, NONSTAR_CLASS};

pub mod finding;
pub mod names;

// A line's place in the ranking of a book with n nodes, from the first two numbers of its row.
pub fn rank_of(n: u32, node: u32, code: u32) -> u32
    requires { (n ≤ node_limit) × (node < n) × (code < 64) }
    ensures { result ≡ rank n (line_of node code []) }
{
    let class = class_of(code);
    let section = section_of(code);
    if class <= ESCAPED_CLASS {
        return 4 * node + 2 * language_of(code) + section;
    }
    4 * n + 2 * n * (class - NONSTAR_CLASS) + 2 * (n - 1 - node) + section
}
