// What a lent book is asked.
ghost use Rattle.book.specs.Layout.{five};
ghost use Rattle.ranking.specs.Matching.{name_of};
ghost use Rattle.numbers.specs.Saying.{refusal_of};
ghost use Rattle.counting.specs.Questions.{count_value, counted, parent_count, version_count};
ghost use Rattle.lookups.specs.Lookups.{locality_asked, locality_value, version_asked, version_value, wanted_of};
ghost use Rattle.export_list.specs.Membership.{contains_asked, membership_value};
ghost use Rattle.reasons.specs.Why.{why_asked, why_numbers};
ghost use Rattle.c_lending.specs.Calls.{Replies, RepliesWith, flag, lent};

#[unsafe(no_mangle)]
pub extern "C" fn tuno_version_count(
    counts: &[u32],
    nodes: &[u32],
    names: &[u8],
    lines: &[u32],
    pool: &[u8],
    journal: &[u32],
    out: &mut [u32],
) -> u32
    ensures { Replies refusal_of count_value
        (counted version_count (lent counts.now
        (five nodes.now names.now lines.now pool.now journal.now)))
        out.old result out.new }
{
    c_api::questions::tuno_version_count(counts, nodes, names, lines, pool, journal, out)
}

#[unsafe(no_mangle)]
pub extern "C" fn tuno_parent_count(
    counts: &[u32],
    nodes: &[u32],
    names: &[u8],
    lines: &[u32],
    pool: &[u8],
    journal: &[u32],
    out: &mut [u32],
) -> u32
    ensures { Replies refusal_of count_value
        (counted parent_count (lent counts.now
        (five nodes.now names.now lines.now pool.now journal.now)))
        out.old result out.new }
{
    c_api::questions::tuno_parent_count(counts, nodes, names, lines, pool, journal, out)
}

#[unsafe(no_mangle)]
pub extern "C" fn tuno_version_for_symbol(
    counts: &[u32],
    nodes: &[u32],
    names: &[u8],
    lines: &[u32],
    pool: &[u8],
    journal: &[u32],
    raw: &[u8],
    demangled: &[u8],
    has_wanted: u32,
    wanted: &[u8],
    out: &mut [u32],
) -> u32
    ensures { Replies refusal_of version_value
        (version_asked (lent counts.now
        (five nodes.now names.now lines.now pool.now journal.now))
        (name_of raw.now demangled.now) (wanted_of (flag has_wanted) wanted.now))
        out.old result out.new }
{
    c_api::questions::tuno_version_for_symbol(
        counts, nodes, names, lines, pool, journal, raw, demangled, has_wanted, wanted, out,
    )
}

#[unsafe(no_mangle)]
pub extern "C" fn tuno_locality(
    counts: &[u32],
    nodes: &[u32],
    names: &[u8],
    lines: &[u32],
    pool: &[u8],
    journal: &[u32],
    raw: &[u8],
    demangled: &[u8],
    out: &mut [u32],
) -> u32
    ensures { Replies refusal_of locality_value
        (locality_asked (lent counts.now
        (five nodes.now names.now lines.now pool.now journal.now))
        (name_of raw.now demangled.now))
        out.old result out.new }
{
    c_api::questions::tuno_locality(
        counts, nodes, names, lines, pool, journal, raw, demangled, out,
    )
}

#[unsafe(no_mangle)]
pub extern "C" fn tuno_contains(
    counts: &[u32],
    nodes: &[u32],
    names: &[u8],
    lines: &[u32],
    pool: &[u8],
    journal: &[u32],
    raw: &[u8],
    demangled: &[u8],
    out: &mut [u32],
) -> u32
    ensures { Replies refusal_of membership_value
        (contains_asked (lent counts.now
        (five nodes.now names.now lines.now pool.now journal.now))
        (name_of raw.now demangled.now))
        out.old result out.new }
{
    c_api::questions::tuno_contains(
        counts, nodes, names, lines, pool, journal, raw, demangled, out,
    )
}

#[unsafe(no_mangle)]
pub extern "C" fn tuno_why(
    counts: &[u32],
    nodes: &[u32],
    names: &[u8],
    lines: &[u32],
    pool: &[u8],
    journal: &[u32],
    raw: &[u8],
    demangled: &[u8],
    has_wanted: u32,
    wanted: &[u8],
    out: &mut [u32],
) -> u32
    ensures { RepliesWith refusal_of why_numbers
        (why_asked (lent counts.now
        (five nodes.now names.now lines.now pool.now journal.now))
        (name_of raw.now demangled.now) (wanted_of (flag has_wanted) wanted.now))
        out.old result out.new }
{
    c_api::questions::tuno_why(
        counts, nodes, names, lines, pool, journal, raw, demangled, has_wanted, wanted, out,
    )
}
