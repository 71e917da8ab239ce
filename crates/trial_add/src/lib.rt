// "Add (node, section, language, token)" of the trial book. A refusal changes nothing. Definitions: trial/specs/Trial.antt (`add_asked`), from document 01,
// 'The book'. It asks first whether the buffers hold a book (14); what it does then stands in `adding`. What it makes of the lines' offsets (02,
// request 02): trial/specs/Offsets.antt.
#![tactic(auto)]

ghost use Rattle.std.specs.Prelude.{◌≡◌};
ghost use Rattle.book.specs.Layout.{five};
ghost use Rattle.trial.specs.Changes.{Answers};
ghost use Rattle.trial.specs.Trial.{add_asked, may_stand_in};

use crate::adding::append;
use book::lent::Lent;
use book::{Counts, EXPORT, RUST};
use book_check::is_book;
use linker_script::trim_ascii_end;
use numbers::{CXX, GLOBAL, LOCAL, NO_BOOK, NO_SUCH, WRONG_KIND};

pub mod adding;

// Whether a line may stand in that node, section and language of a book of that kind.
fn may_stand(kind: u32, nodes: u32, node: u32, section: u32, language: u32) -> bool
    ensures { result ≡ may_stand_in kind nodes node section language }
{
    if nodes <= node {
        return false;
    }
    if LOCAL < section {
        return false;
    }
    if CXX < language {
        return false;
    }
    if kind != EXPORT {
        return true;
    }
    if section != GLOBAL {
        return false;
    }
    node == 0
}

// A line more, of the offset 0 (`AddOffsets`): the token is trimmed and classed as in a script.
pub fn add(
    c: Counts,
    nodes: &[u32],
    names: &[u8],
    lines: &mut [u32],
    pool: &mut [u8],
    journal: &mut [u32],
    node: u32,
    section: u32,
    language: u32,
    token: &[u8],
) -> Result<Counts, u32>
    ensures { Answers c (five nodes.now names.now lines.old pool.old journal.old)
        (λ b w. add_asked b w node section language token.now)
        result (five nodes.now names.now lines.new pool.new journal.new) }
{
    if !is_book(Lent {
        counts: c,
        nodes,
        names,
        lines,
        pool,
        journal,
    }) {
        return Err(NO_BOOK);
    }
    if c.kind == RUST {
        return Err(WRONG_KIND);
    }
    if !may_stand(c.kind, c.nodes, node, section, language) {
        return Err(NO_SUCH);
    }
    let trimmed = trim_ascii_end(token);
    append(
        c, nodes, names, lines, pool, journal, node, section, language, trimmed,
    )
}
