// The edits that add to a lent book, whose counts are six numbers: the refusal or 0. Where an edit is done its counts are written; where it is refused
// nothing is. Definitions: c_lending/specs/Calls.antt.
ghost use Rattle.book.specs.Layout.{five};
ghost use Rattle.trial.specs.Symbols.{symbol_asked};
ghost use Rattle.trial.specs.Trial.{add_asked};
ghost use Rattle.c_lending.specs.Calls.{Edits, flag};

use c_lending::{counts_of, finish};

// A line more in a node, a section and a language.
pub fn add(
    counts: &mut [u32],
    nodes: &[u32],
    names: &[u8],
    lines: &mut [u32],
    pool: &mut [u8],
    journal: &mut [u32],
    node: u32,
    section: u32,
    language: u32,
    token: &[u8],
) -> u32
    ensures { Edits counts.old
        (five nodes.now names.now lines.old pool.old journal.old)
        (λ b w. add_asked b w node section language token.now)
        result counts.new (five nodes.now names.now lines.new pool.new journal.new) }
{
    let c = counts_of(counts);
    let r = trial_add::add(
        c, nodes, names, lines, pool, journal, node, section, language, token,
    );
    finish(r, counts)
}

// The lines of a text, added to an export list, all or none. `without_semicolon`, where it is not 0, says how the text ends.
pub fn add_symbol(
    counts: &mut [u32],
    nodes: &[u32],
    names: &[u8],
    lines: &mut [u32],
    pool: &mut [u8],
    journal: &mut [u32],
    text: &[u8],
    without_semicolon: u32,
) -> u32
    ensures { Edits counts.old
        (five nodes.now names.now lines.old pool.old journal.old)
        (λ b w. symbol_asked b w text.now (flag without_semicolon))
        result counts.new (five nodes.now names.now lines.new pool.new journal.new) }
{
    let c = counts_of(counts);
    let bare = without_semicolon != 0;
    let r = trial_symbols::add_symbol(c, nodes, names, lines, pool, journal, text, bare);
    finish(r, counts)
}
