// A symbol's line asked of a book, as `verlist` asks it, or of an export list, with the demangled name behind a TAB; and why it is answered so. Both are put
// into a lent buffer. Definitions: specs/Asked.antt, and printing_why's. These functions are the release desk's own leaves: they ask for room.
ghost use Rattle.std.specs.Prelude.{◌≡◌, ◌+◌, ◌≤◌, [], ◌∷◌, ◌++◌, length};
ghost use Rattle.numbers.specs.Signs.{line_feed};
ghost use Rattle.book.specs.Lending.{buffers_of, view_of};
ghost use Rattle.book.specs.Layout.{five};
ghost use Rattle.book.specs.View.{view};
ghost use Rattle.ranking.specs.Matching.{name_of};
ghost use Rattle.lookups.specs.Lookups.{bytes_of};
ghost use Rattle.desk.specs.Answers.{Tells};
ghost use Rattle.desk.specs.Asked.{asked, member_asked, member_fields, member_line, version_asked_line};
ghost use Rattle.printing_symbols.specs.Lines.{tail_room};
ghost use Rattle.printing.specs.Printing.{Begins, Puts};
ghost use Rattle.printing_why.specs.WhyLine.{why_room};
ghost use Rattle.printing_why.specs.Whys.{why_answered};

use crate::answering::{Ran, printed};
use book::EXPORT;
use book::lent::Lent;
use export_list::lookups::contains;
use input::splitting::{part_before, part_behind};
use lookups::locality_lookup::locality;
use lookups::version_lookup::version_for_symbol;
use numbers::Refusal;
use printing::{put_refused_fields, put_text};
use printing_symbols::symbols::put_symbol_line;
use printing_why::{demangled_of, render_why};

// Whether a name is in an export list, and the end of the line.
fn put_within(out: &mut [u8], at: usize, within: bool) -> usize
    requires { at + 4 ≤ length out.old }
    ensures { Puts out.old at (member_fields (Ok within) ++ line_feed ∷ []) out.new result }
{
    if within {
        return put_text(out, at, b"in\n");
    }
    put_text(out, at, b"out\n")
}

// A name and whether it is in an export list, as a line.
fn put_member(out: &mut [u8], name: &[u8], m: Result<bool, Refusal>) -> usize
    requires { length name.now + tail_room ≤ length out.old }
    ensures { Begins out.old (member_line name.now m) out.new result }
{
    let a = put_text(out, 0, name);
    let b = put_text(out, a, b" ");
    match m {
        Ok(within) => put_within(out, b, within),
        Err(no) => {
            let end = put_refused_fields(out, b, no.number());
            put_text(out, end, b"\n")
        }
    }
}

// A name asked of an export list.
fn ask_member(book: Lent, raw: &[u8], demangled: &[u8], out: &mut [u8]) -> usize
    requires { length raw.now + tail_room ≤ length out.old }
    ensures { Begins out.old
        (member_asked (view_of book.entry)
        (name_of raw.now demangled.now)) out.new result }
{
    let m = contains(book, raw, demangled);
    put_member(out, raw, m)
}

// A name asked of a version script, with the version that is wanted, if one is.
fn ask_version(
    book: Lent,
    raw: &[u8],
    demangled: &[u8],
    wanted: Option<&[u8]>,
    out: &mut [u8],
) -> usize
    requires { length raw.now + tail_room ≤ length out.old }
    ensures { Begins out.old
        (version_asked_line (view_of book.entry)
        (name_of raw.now demangled.now) (bytes_of wanted.entry)) out.new result }
{
    let v = version_for_symbol(book, raw, demangled, wanted);
    let l = locality(book, raw, demangled);
    put_symbol_line(out, raw, v, l)
}

// A symbol's line asked of a book.
pub fn run_ask(book: Lent, t: &[u8], out: &mut [u8]) -> Ran
    requires { length t.now + tail_room ≤ length out.old }
    ensures { Tells book.entry.counts (buffers_of book.entry)
        (λ b w. asked book.entry.counts.kind w t.now) out.old result out.new }
{
    let c = book.counts;
    let symbol = part_before(t, b'\t');
    let raw = part_before(symbol, b'@');
    let demangled = demangled_of(t, symbol.len(), raw);
    if c.kind == EXPORT {
        return printed(c, ask_member(book, raw, demangled, out));
    }
    let has_wanted = raw.len() < symbol.len();
    let wanted = has_wanted.then_some(part_behind(symbol, raw.len()));
    printed(c, ask_version(book, raw, demangled, wanted, out))
}

// Why a symbol's line is answered as it is; the text is what was opened into the buffers.
pub fn run_why(book: Lent, text: &[u8], t: &[u8], out: &mut [u8]) -> Ran
    requires { length t.now + book.counts.names + why_room ≤ length out.old }
    ensures { Tells book.entry.counts (buffers_of book.entry)
        (λ b w. why_answered text.now w t.now) out.old result out.new }
{
    let c = book.counts;
    printed(c, render_why(book, text, t, out))
}
