// version_script.rs, the book's side: the version of a name. Definitions: crate lookups, specs/Lookups.antt, from document 01, 'Ranking'. The question asks
// first whether the buffers hold a book (14); `version_in_book` is for callers who know it.
ghost use Rattle.std.specs.Prelude.{◌≡◌, true, ◌≤◌, ◌<◌, length};
ghost use Rattle.numbers.specs.Limits.{name_limit, node_limit};
ghost use Rattle.packing.specs.Tables.{packs, things};
ghost use Rattle.book.specs.Lending.{view_of};
ghost use Rattle.book.specs.Layout.{five, frame_of, line_form};
ghost use Rattle.book.specs.Sanity.{line_ok};
ghost use Rattle.book.specs.View.{holds, view};
ghost use Rattle.ranking.specs.Matching.{name_of};
ghost use Rattle.lookups.specs.Lookups.{long_wanted, node_version, version_among, version_asked, bytes_of};

use crate::answers::Version;
use crate::index::{NodeNumber, VersionIndex};
use crate::wanted::wanted_version;
use book::lent::Lent;
use book::{Counts, EXPORT, LINE_WIDTH, RUST, frame_of};
use book_check::Held;
use numbers::{Refusal, VERSION_LIMIT};
use ranking::finding::find_match;
use ranking::names::name_refusal;

// The version of a node: node 0 has none.
fn node_version(node: u32) -> Option<VersionIndex>
    requires { node < node_limit }
    ensures { result ≡ node_version node }
{
    if node == 0 {
        return None;
    }
    Some(VersionIndex::from_node(NodeNumber::of_row(node as u16)))
}

// The version of the deciding line's node.
fn decided_version(
    c: Counts,
    lines: &[u32],
    pool: &[u8],
    raw: &[u8],
    demangled: &[u8],
) -> Option<VersionIndex>
    requires { (packs line_form (line_ok (frame_of c)) c.lines c.pool lines.now pool.now ≡ true) × (c.nodes ≤ node_limit)
        × (length raw.now ≤ name_limit) × (length demangled.now ≤ name_limit) }
    ensures { result ≡ version_among (frame_of c) (name_of raw.now demangled.now)
        (things line_form c.lines lines.now pool.now) }
{
    match find_match(
        frame_of(c),
        lines,
        pool,
        c.lines as usize,
        c.pool as usize,
        raw,
        demangled,
    ) {
        Some(i) => node_version(lines[LINE_WIDTH * i]),
        None => None,
    }
}

// Whether a version is wanted that is over its limit.
pub fn is_long(wanted: Option<&[u8]>) -> bool
    ensures { result ≡ long_wanted (bytes_of wanted.entry) }
{
    match wanted {
        Some(wanted) => VERSION_LIMIT < wanted.len(),
        None => false,
    }
}

// The version of a name in buffers that hold a book, or of the version that is wanted.
pub fn version_in_book(book: Held, raw: &[u8], demangled: &[u8], wanted: Option<&[u8]>) -> Version
    ensures { result ≡ version_asked
        (view_of book.entry.lent)
        (name_of raw.now demangled.now) (bytes_of wanted.entry) }
{
    let c = book.lent.counts;
    if c.kind == EXPORT {
        return Err(Refusal::WrongKind);
    }
    name_refusal(raw, demangled, is_long(wanted))?;
    if c.kind == RUST {
        return Ok(None);
    }
    match wanted {
        Some(wanted) => match wanted_version(c, book.lent.nodes, book.lent.names, wanted) {
            Ok(index) => Ok(Some(index)),
            Err(unknown) => Err(unknown),
        },
        None => Ok(decided_version(c, book.lent.lines, book.lent.pool, raw, demangled)),
    }
}

// The version of a name, or of the version that is wanted.
pub fn version_for_symbol(
    book: Lent,
    raw: &[u8],
    demangled: &[u8],
    wanted: Option<&[u8]>,
) -> Version
    ensures { result ≡ version_asked
        (view_of book.entry)
        (name_of raw.now demangled.now) (bytes_of wanted.entry) }
{
    match Held::of(book) {
        Ok(held) => version_in_book(held, raw, demangled, wanted),
        Err(no) => Err(no),
    }
}
