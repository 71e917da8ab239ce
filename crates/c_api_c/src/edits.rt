// A lent book edited.
ghost use Rattle.book.specs.Layout.{five};
ghost use Rattle.trial.specs.Symbols.{symbol_asked};
ghost use Rattle.trial.specs.Trial.{add_asked, settle_asked, strike_asked, undo_asked};
ghost use Rattle.c_lending.specs.Calls.{Edits, flag};

#[unsafe(no_mangle)]
pub extern "C" fn tuno_add(
    counts: &mut [u32],
    nodes: &[u32],
    names: &[u8],
    lines: &mut [u32],
    pool: &mut [u8],
    journal: &mut [u32],
    node: u32,
    section: u32,
    language: u32,
    token: &[u8],
) -> u32
    ensures { Edits counts.old
        (five nodes.now names.now lines.old pool.old journal.old)
        (λ b w. add_asked b w node section language token.now)
        result counts.new (five nodes.now names.now lines.new pool.new journal.new) }
{
    c_api::edits::tuno_add(
        counts, nodes, names, lines, pool, journal, node, section, language, token,
    )
}

#[unsafe(no_mangle)]
pub extern "C" fn tuno_strike(
    counts: &mut [u32],
    nodes: &[u32],
    names: &[u8],
    lines: &mut [u32],
    pool: &[u8],
    journal: &mut [u32],
    line: u32,
) -> u32
    ensures { Edits counts.old
        (five nodes.now names.now lines.old pool.now journal.old)
        (λ b w. strike_asked b w line)
        result counts.new (five nodes.now names.now lines.new pool.now journal.new) }
{
    c_api::edits::tuno_strike(counts, nodes, names, lines, pool, journal, line)
}

#[unsafe(no_mangle)]
pub extern "C" fn tuno_undo(
    counts: &mut [u32],
    nodes: &[u32],
    names: &[u8],
    lines: &mut [u32],
    pool: &mut [u8],
    journal: &mut [u32],
) -> u32
    ensures { Edits counts.old
        (five nodes.now names.now lines.old pool.old journal.old)
        (λ b w. undo_asked w)
        result counts.new (five nodes.now names.now lines.new pool.new journal.new) }
{
    c_api::edits::tuno_undo(counts, nodes, names, lines, pool, journal)
}

#[unsafe(no_mangle)]
pub extern "C" fn tuno_settle(
    counts: &mut [u32],
    nodes: &[u32],
    names: &[u8],
    lines: &mut [u32],
    pool: &mut [u8],
    journal: &mut [u32],
) -> u32
    ensures { Edits counts.old
        (five nodes.now names.now lines.old pool.old journal.old)
        (λ b w. settle_asked w)
        result counts.new (five nodes.now names.now lines.new pool.new journal.new) }
{
    c_api::edits::tuno_settle(counts, nodes, names, lines, pool, journal)
}

#[unsafe(no_mangle)]
pub extern "C" fn tuno_add_symbol(
    counts: &mut [u32],
    nodes: &[u32],
    names: &[u8],
    lines: &mut [u32],
    pool: &mut [u8],
    journal: &mut [u32],
    text: &[u8],
    without_semicolon: u32,
) -> u32
    ensures { Edits counts.old
        (five nodes.now names.now lines.old pool.old journal.old)
        (λ b w. symbol_asked b w text.now (flag without_semicolon))
        result counts.new (five nodes.now names.now lines.new pool.new journal.new) }
{
    c_api::edits::tuno_add_symbol(
        counts,
        nodes,
        names,
        lines,
        pool,
        journal,
        text,
        without_semicolon,
    )
}
