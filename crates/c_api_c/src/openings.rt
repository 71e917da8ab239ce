// Opening a text into lent buffers.
ghost use Rattle.book.specs.Layout.{five};
ghost use Rattle.book_opening.specs.Opening.{as_list, as_script};
ghost use Rattle.c_lending.specs.Calls.{Opens};

#[unsafe(no_mangle)]
pub extern "C" fn tuno_open_version_script(
    text: &[u8],
    counts: &mut [u32],
    nodes: &mut [u32],
    names: &mut [u8],
    lines: &mut [u32],
    pool: &mut [u8],
    journal: &mut [u32],
) -> u64
    ensures { Opens as_script counts.old
        (five nodes.old names.old lines.old pool.old journal.old)
        text.now result counts.new
        (five nodes.new names.new lines.new pool.new journal.new) }
{
    c_api::openings::tuno_open_version_script(text, counts, nodes, names, lines, pool, journal)
}

#[unsafe(no_mangle)]
pub extern "C" fn tuno_open_export_list(
    text: &[u8],
    counts: &mut [u32],
    nodes: &mut [u32],
    names: &mut [u8],
    lines: &mut [u32],
    pool: &mut [u8],
    journal: &mut [u32],
) -> u64
    ensures { Opens as_list counts.old
        (five nodes.old names.old lines.old pool.old journal.old)
        text.now result counts.new
        (five nodes.new names.new lines.new pool.new journal.new) }
{
    c_api::openings::tuno_open_export_list(text, counts, nodes, names, lines, pool, journal)
}
