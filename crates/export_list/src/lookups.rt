// Whether a name is in an export list.
ghost use Rattle.std.specs.Prelude.{◌≡◌};
ghost use Rattle.book.specs.Lending.{view_of};
ghost use Rattle.book.specs.Layout.{five};
ghost use Rattle.book.specs.View.{view};
ghost use Rattle.ranking.specs.Matching.{name_of};
ghost use Rattle.export_list.specs.Membership.{contains_asked};

use book::lent::Lent;
use book::{EXPORT, frame_of};
use book_check::is_book;
use numbers::Refusal;
use ranking::finding::find_match;
use ranking::names::name_refusal;

// Whether some line matches a name, the raw one or, of a C++ line, the demangled one.
pub fn contains(book: Lent, raw: &[u8], demangled: &[u8]) -> Result<bool, Refusal>
    ensures { result ≡ contains_asked
        (view_of book.entry)
        (name_of raw.now demangled.now) }
{
    let c = book.counts;
    if !is_book(book) {
        return Err(Refusal::NoBook);
    }
    if c.kind != EXPORT {
        return Err(Refusal::WrongKind);
    }
    name_refusal(raw, demangled, false)?;
    let decider = find_match(
        frame_of(c),
        book.lines,
        book.pool,
        c.lines as usize,
        c.pool as usize,
        raw,
        demangled,
    );
    Ok(decider.is_some())
}
