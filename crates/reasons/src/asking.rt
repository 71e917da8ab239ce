// Why a name has its version, is global or local, or is in an export list. Definitions: specs/Why.antt, from document 02, request 03. `why` asks first whether
// the buffers hold a book (14); `why_in_book` is for callers who know it.
ghost use Rattle.std.specs.Prelude.{◌≡◌, true};
ghost use Rattle.book.specs.Lending.{view_of};
ghost use Rattle.book.specs.Layout.{five};
ghost use Rattle.book.specs.View.{holds, view};
ghost use Rattle.lookups.specs.Lookups.{bytes_of};
ghost use Rattle.ranking.specs.Matching.{name_of};
ghost use Rattle.reasons.specs.Why.{barred, is_wanted, why_asked};

use crate::Why;
use crate::telling::{ranked_why, rust_why};
use book::lent::Lent;
use book::{EXPORT, RUST};
use book_check::Held;
use lookups::version_lookup::is_long;
use lookups::wanted::wanted_version;
use numbers::Refusal;
use ranking::names::name_refusal;

// Whether a version is wanted of an export list.
fn is_barred(kind: u32, wanted: Option<&[u8]>) -> bool
    ensures { result ≡ barred kind (is_wanted (bytes_of wanted.entry)) }
{
    kind == EXPORT && wanted.is_some()
}

// Why a name is answered as it is, in buffers that hold a book, where that version is wanted or none.
pub fn why_in_book(
    book: Held,
    raw: &[u8],
    demangled: &[u8],
    wanted: Option<&[u8]>,
) -> Result<Why, Refusal>
    ensures { result ≡ why_asked
        (view_of book.entry.lent)
        (name_of raw.now demangled.now) (bytes_of wanted.entry) }
{
    let c = book.lent.counts;
    if is_barred(c.kind, wanted) {
        return Err(Refusal::WrongKind);
    }
    if let Err(no) = name_refusal(raw, demangled, is_long(wanted)) {
        return Err(no);
    }
    if c.kind == RUST {
        return Ok(rust_why(c, book.lent.lines, book.lent.pool, raw));
    }
    match wanted {
        Some(wanted) => match wanted_version(c, book.lent.nodes, book.lent.names, wanted) {
            Ok(_) => Ok(Why::Wanted),
            Err(unknown) => Err(unknown),
        },
        None => Ok(ranked_why(c, book.lent.lines, book.lent.pool, raw, demangled)),
    }
}

// Why a name is answered as it is, where that version is wanted or none.
pub fn why(book: Lent, raw: &[u8], demangled: &[u8], wanted: Option<&[u8]>) -> Result<Why, Refusal>
    ensures { result ≡ why_asked
        (view_of book.entry)
        (name_of raw.now demangled.now) (bytes_of wanted.entry) }
{
    match Held::of(book) {
        Ok(held) => why_in_book(held, raw, demangled, wanted),
        Err(no) => Err(no),
    }
}
