// A lent book edited: the refusal or 0. Where an edit is done its counts are written; where it is refused nothing is.
ghost use Rattle.book.specs.Layout.{five};
ghost use Rattle.trial.specs.Symbols.{symbol_asked};
ghost use Rattle.trial.specs.Trial.{add_asked, settle_asked, strike_asked, undo_asked};
ghost use Rattle.c_lending.specs.Calls.{Edits, flag};

// A line more in a node, a section and a language.
#[unsafe(no_mangle)]
pub extern "C" fn tuno_add(
    counts: &mut [u32],
    nodes: &[u32],
    names: &[u8],
    lines: &mut [u32],
    pool: &mut [u8],
    journal: &mut [u32],
    node: u32,
    section: u32,
    language: u32,
    token: &[u8],
) -> u32
    ensures { Edits counts.old
        (five nodes.now names.now lines.old pool.old journal.old)
        (λ b w. add_asked b w node section language token.now)
        result counts.new (five nodes.now names.now lines.new pool.new journal.new) }
{
    crate::lent_additions::add(
        counts, nodes, names, lines, pool, journal, node, section, language, token,
    )
}

// A line that stands is struck.
#[unsafe(no_mangle)]
pub extern "C" fn tuno_strike(
    counts: &mut [u32],
    nodes: &[u32],
    names: &[u8],
    lines: &mut [u32],
    pool: &[u8],
    journal: &mut [u32],
    line: u32,
) -> u32
    ensures { Edits counts.old
        (five nodes.now names.now lines.old pool.now journal.old)
        (λ b w. strike_asked b w line)
        result counts.new (five nodes.now names.now lines.new pool.now journal.new) }
{
    crate::lent_edits::strike(counts, nodes, names, lines, pool, journal, line)
}

// The latest edit is taken back.
#[unsafe(no_mangle)]
pub extern "C" fn tuno_undo(
    counts: &mut [u32],
    nodes: &[u32],
    names: &[u8],
    lines: &mut [u32],
    pool: &mut [u8],
    journal: &mut [u32],
) -> u32
    ensures { Edits counts.old
        (five nodes.now names.now lines.old pool.old journal.old)
        (λ b w. undo_asked w)
        result counts.new (five nodes.now names.now lines.new pool.new journal.new) }
{
    crate::lent_edits::undo(counts, nodes, names, lines, pool, journal)
}

// The struck lines are dropped, and the rest is packed.
#[unsafe(no_mangle)]
pub extern "C" fn tuno_settle(
    counts: &mut [u32],
    nodes: &[u32],
    names: &[u8],
    lines: &mut [u32],
    pool: &mut [u8],
    journal: &mut [u32],
) -> u32
    ensures { Edits counts.old
        (five nodes.now names.now lines.old pool.old journal.old)
        (λ b w. settle_asked w)
        result counts.new (five nodes.now names.now lines.new pool.new journal.new) }
{
    crate::lent_edits::settle(counts, nodes, names, lines, pool, journal)
}

// The lines of a text, added to an export list, all or none. `without_semicolon`, where it is not 0, says how the text ends.
#[unsafe(no_mangle)]
pub extern "C" fn tuno_add_symbol(
    counts: &mut [u32],
    nodes: &[u32],
    names: &[u8],
    lines: &mut [u32],
    pool: &mut [u8],
    journal: &mut [u32],
    text: &[u8],
    without_semicolon: u32,
) -> u32
    ensures { Edits counts.old
        (five nodes.now names.now lines.old pool.old journal.old)
        (λ b w. symbol_asked b w text.now (flag without_semicolon))
        result counts.new (five nodes.now names.now lines.new pool.new journal.new) }
{
    crate::lent_additions::add_symbol(
        counts,
        nodes,
        names,
        lines,
        pool,
        journal,
        text,
        without_semicolon,
    )
}
