// The answers to the symbols' lines of verlist's input, into a lent buffer, from document 01, 'Known points' (the program `verlist`). Definition:
// specs/SymbolLines.antt.
ghost use Rattle.std.specs.Prelude.{◌≡◌, true, [], ◌+◌, ◌*◌, ◌<◌, ◌≤◌, length};
ghost use Rattle.book.specs.Lending.{view_of};
ghost use Rattle.book.specs.Layout.{five};
ghost use Rattle.book.specs.View.{holds, view};
ghost use Rattle.lookups.specs.Lookups.{bytes_of};
ghost use Rattle.input.specs.Splitting.{lines_in};
ghost use Rattle.printing.specs.Printing.{Begins, Puts};
ghost use Rattle.printing_symbols.specs.Lines.{asked_line, byte_room, symbol_answered, tail_room};
ghost use Rattle.printing_listing.specs.SymbolLines.{answers};

use book_check::Held;
use input::splitting::find_at;
use linker_script::searching::find;
use lookups::locality_lookup::locality_in_book;
use lookups::version_lookup::version_in_book;
use printing_symbols::symbols::put_symbol_line;

// A symbol that a book is asked for, with the version that is wanted, if one is. The book is not checked for each symbol: what an opening leaves is a book.
fn render_asked_in_book(book: Held, name: &[u8], wanted: Option<&[u8]>, out: &mut [u8]) -> usize
    requires { length name.now + tail_room ≤ length out.old }
    ensures { Begins out.old
        (asked_line (view_of book.entry.lent)
        name.now (bytes_of wanted.entry)) out.new result }
{
    let v = version_in_book(book, name, name, wanted);
    let l = locality_in_book(book, name, name);
    put_symbol_line(out, name, v, l)
}

// A symbol's line of the input, asked of buffers that hold a book.
fn render_symbol_in_book(book: Held, line: &[u8], out: &mut [u8]) -> usize
    requires { length line.now + tail_room ≤ length out.old }
    ensures { Begins out.old
        (symbol_answered (view_of book.entry.lent)
        line.now) out.new result }
{
    match find_at(line) {
        None => render_asked_in_book(book, line, None, out),
        Some(p) => {
            let from = p + 1;
            render_asked_in_book(book, &line[..p], Some(&line[from..]), out)
        }
    }
}

// The answer to a symbol's line, from a place of `out` on, and the place behind it.
fn put_answer(book: Held, line: &[u8], at: usize, out: &mut [u8]) -> usize
    requires { at + length line.now + tail_room ≤ length out.old }
    ensures { Puts out.old at
        (symbol_answered (view_of book.entry.lent)
        line.now) out.new result }
{
    let n = render_symbol_in_book(book, line, &mut out[at..]);
    at + n
}

// The answers to the symbols' lines, from a place of `out` on, and the place behind them.
pub fn render_symbols(book: Held, symbols: &[u8], from: usize, out: &mut [u8]) -> usize
    requires { 0 < length symbols.now → from + tail_room + byte_room * length symbols.now ≤ length out.old }
    ensures { Puts out.old from
        (answers (view_of book.entry.lent)
        (lines_in [] symbols.now)) out.new result }
{
    let mut at = 0;
    let mut end = from;
    while at < symbols.len() {
        match find(symbols, b'\n', at) {
            Some(p) => {
                end = put_answer(book, &symbols[at..p], end, out);
                at = p + 1;
            }
            None => {
                return put_answer(book, &symbols[at..], end, out);
            }
        }
    }
    end
}
