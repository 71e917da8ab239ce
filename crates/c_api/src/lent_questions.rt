// The questions of a lent book, whose counts are six numbers: the library's answer, as a refusal's number or 0, with a value into the first number of `out`.
// `out` shorter than needed is refused 8, last, and nothing is written where anything is refused. Definitions: c_lending/specs/Calls.antt.
ghost use Rattle.std.specs.Prelude.{◌≡◌};
ghost use Rattle.book.specs.Layout.{five};
ghost use Rattle.ranking.specs.Matching.{name_of};
ghost use Rattle.numbers.specs.Saying.{refusal_of};
ghost use Rattle.counting.specs.Questions.{count_value, counted, parent_count, version_count};
ghost use Rattle.lookups.specs.Lookups.{locality_asked, locality_value, version_asked, version_value, wanted_of};
ghost use Rattle.export_list.specs.Membership.{contains_asked, membership_value};
ghost use Rattle.c_lending.specs.Calls.{Replies, flag, lent};

use book::lent::Lent;
use c_lending::{answer, counts_of};
use lookups::answers::{Locality, Version};
use lookups::index::VersionIndex;
use numbers::Refusal;

// This and the three `tell` functions below differ in the value alone. One function over a closure is no plainer: each call would prove the closure's promise.
fn tell_count(r: Result<u32, Refusal>, out: &mut [u32]) -> u32
    ensures { Replies refusal_of count_value r out.old result out.new }
{
    match r {
        Err(no) => answer(no.number(), 0, out),
        Ok(n) => answer(0, n, out),
    }
}

// The index of the version, 0 for none.
fn version_number(v: Option<VersionIndex>) -> u32
    ensures { result ≡ version_value (Ok v) }
{
    match v {
        Some(i) => i.number(),
        None => 0,
    }
}

fn tell_version(r: Version, out: &mut [u32]) -> u32
    ensures { Replies refusal_of version_value r out.old result out.new }
{
    match r {
        Ok(v) => answer(0, version_number(v), out),
        Err(no) => answer(no.number(), 0, out),
    }
}

// 1 for global, 2 for local.
fn place_number(l: Locality) -> u32
    ensures { result ≡ locality_value (Ok (Some l)) }
{
    match l {
        Locality::Global => 1,
        Locality::Local => 2,
    }
}

// The same, and 0 for nothing.
fn locality_number(l: Option<Locality>) -> u32
    ensures { result ≡ locality_value (Ok l) }
{
    match l {
        Some(l) => place_number(l),
        None => 0,
    }
}

fn tell_locality(r: Result<Option<Locality>, Refusal>, out: &mut [u32]) -> u32
    ensures { Replies refusal_of locality_value r out.old result out.new }
{
    match r {
        Ok(l) => answer(0, locality_number(l), out),
        Err(no) => answer(no.number(), 0, out),
    }
}

// 1 where the name is in the list, else 0.
fn tell_membership(r: Result<bool, Refusal>, out: &mut [u32]) -> u32
    ensures { Replies refusal_of membership_value r out.old result out.new }
{
    match r {
        Ok(within) => answer(0, u32::from(within), out),
        Err(no) => answer(no.number(), 0, out),
    }
}

pub fn version_count(
    counts: &[u32],
    nodes: &[u32],
    names: &[u8],
    lines: &[u32],
    pool: &[u8],
    journal: &[u32],
    out: &mut [u32],
) -> u32
    ensures { Replies refusal_of count_value
        (counted version_count (lent counts.now
        (five nodes.now names.now lines.now pool.now journal.now)))
        out.old result out.new }
{
    let r = counting::version_count(Lent {
        counts: counts_of(counts),
        nodes,
        names,
        lines,
        pool,
        journal,
    });
    tell_count(r, out)
}

pub fn parent_count(
    counts: &[u32],
    nodes: &[u32],
    names: &[u8],
    lines: &[u32],
    pool: &[u8],
    journal: &[u32],
    out: &mut [u32],
) -> u32
    ensures { Replies refusal_of count_value
        (counted parent_count (lent counts.now
        (five nodes.now names.now lines.now pool.now journal.now)))
        out.old result out.new }
{
    let r = counting::parent_count(Lent {
        counts: counts_of(counts),
        nodes,
        names,
        lines,
        pool,
        journal,
    });
    tell_count(r, out)
}

// `has_wanted`, where it is not 0, says that `wanted` is the version that is wanted.
pub fn version_for_symbol(
    counts: &[u32],
    nodes: &[u32],
    names: &[u8],
    lines: &[u32],
    pool: &[u8],
    journal: &[u32],
    raw: &[u8],
    demangled: &[u8],
    has_wanted: u32,
    wanted: &[u8],
    out: &mut [u32],
) -> u32
    ensures { Replies refusal_of version_value
        (version_asked (lent counts.now
        (five nodes.now names.now lines.now pool.now journal.now))
        (name_of raw.now demangled.now) (wanted_of (flag has_wanted) wanted.now))
        out.old result out.new }
{
    let has = has_wanted != 0;
    let r = lookups::version_lookup::version_for_symbol(
        Lent {
            counts: counts_of(counts),
            nodes,
            names,
            lines,
            pool,
            journal,
        },
        raw,
        demangled,
        has.then_some(wanted),
    );
    tell_version(r, out)
}

pub fn locality(
    counts: &[u32],
    nodes: &[u32],
    names: &[u8],
    lines: &[u32],
    pool: &[u8],
    journal: &[u32],
    raw: &[u8],
    demangled: &[u8],
    out: &mut [u32],
) -> u32
    ensures { Replies refusal_of locality_value
        (locality_asked (lent counts.now
        (five nodes.now names.now lines.now pool.now journal.now))
        (name_of raw.now demangled.now))
        out.old result out.new }
{
    let r = lookups::locality_lookup::locality(
        Lent {
            counts: counts_of(counts),
            nodes,
            names,
            lines,
            pool,
            journal,
        },
        raw,
        demangled,
    );
    tell_locality(r, out)
}

pub fn contains(
    counts: &[u32],
    nodes: &[u32],
    names: &[u8],
    lines: &[u32],
    pool: &[u8],
    journal: &[u32],
    raw: &[u8],
    demangled: &[u8],
    out: &mut [u32],
) -> u32
    ensures { Replies refusal_of membership_value
        (contains_asked (lent counts.now
        (five nodes.now names.now lines.now pool.now journal.now))
        (name_of raw.now demangled.now))
        out.old result out.new }
{
    let r = export_list::lookups::contains(
        Lent {
            counts: counts_of(counts),
            nodes,
            names,
            lines,
            pool,
            journal,
        },
        raw,
        demangled,
    );
    tell_membership(r, out)
}
