// Why symbols have the versions that they have under a version script: for each the line that decides, as document 02 describes it (request 03). Standard input
// as verlist's (65,536 bytes at most): the script, a line `%%`, then one symbol a line, `@` before a wanted version, and behind a TAB the demangled name, the
// raw one again where there is none. What is printed for a symbol is rendered by `printing_why::render_why_in_book`; a script that is refused prints `refused`
// and the number alone, and standard error says where, and what the number means.
#![tactic(auto)]

ghost use Rattle.std.specs.Prelude.{◌≡◌, true, [], ◌≤◌, length, IfOk, OnErr};
ghost use Rattle.lists.specs.Front.{front};
ghost use Rattle.book.specs.Lending.{view_of};
ghost use Rattle.book.specs.Layout.{five};
ghost use Rattle.book.specs.View.{holds, view};
ghost use Rattle.book_opening.specs.Opening.{as_script, opening};
ghost use Rattle.input.specs.Splitting.{input_limit, lines_in};
ghost use Rattle.printing.specs.Printing.{Begins, refused_line};
ghost use Rattle.printing_listing.specs.Listing.{verlist_room};
ghost use Rattle.printing_why.specs.Whys.{PrintsLines, why_answered, why_listing, why_printed, whys};
ghost use Rattle.why.specs.Stops.{StopsWithin};

use book::lent::Lent;
use book_check::Held;
use input::splitting::line_end;
use meanings::{front, read_input, say_refused};
use numbers::TOO_LONG;
use printing::put_refused_line;
use printing_listing::{INPUT_LIMIT, script_end, symbols_start};
use printing_why::render_why_in_book;
use std::io;
use std::io::Print;
use version_script::open;

// A script that is refused: the number, and for a person where and why. What is printed stands at the start of `out`; its length is answered.
fn refuse(
    to: &impl Print,
    err: &impl Print,
    text: &[u8],
    no: u32,
    place: usize,
    out: &mut [u8; 131200],
) -> io::Result<usize>
    ensures ok { IfOk result (λ n. Begins out.old (refused_line no) out.new n) }
    ensures err { OnErr result (out.new ≡ front (refused_line no) out.old) }
{
    let n = put_refused_line(out, no);
    to.write_all(front(out, n))?;
    say_refused(err, b"why: ", text, place, no)?;
    Ok(n)
}

// A symbol's line, asked of a book that the text was opened as. What is printed stands at the start of `out`; its length is answered.
fn tell_symbol(
    to: &impl Print,
    book: Held,
    text: &[u8],
    line: &[u8],
    out: &mut [u8; 131200],
) -> io::Result<usize>
    requires { (length book.lent.names.now ≤ 65536)
        × (length line.now ≤ input_limit) }
    ensures ok { IfOk result (λ n. Begins out.old (why_answered text.now
        (view_of book.entry.lent) line.now)
        out.new n × (n ≤ 131200)) }
    ensures err { OnErr result (out.new ≡ front (why_answered text.now
        (view_of book.entry.lent) line.now) out.old) }
{
    let n = render_why_in_book(book, text, line, out);
    to.write_all(front(out, n))?;
    Ok(n)
}

// The symbols, one a line; a last line feed may lack. Each is printed from the start of `out`; how many bytes that are in all is answered.
fn tell_symbols(
    to: &impl Print,
    book: Held,
    text: &[u8],
    symbols: &[u8],
    out: &mut [u8; 131200],
) -> io::Result<usize>
    requires { (length book.lent.names.now ≤ 65536)
        × (length symbols.now ≤ input_limit) }
    ensures ok { IfOk result (λ n. PrintsLines (whys text.now
        (view_of book.entry.lent)
        (lines_in [] symbols.now)) out.old n out.new) }
    ensures err { OnErr result (StopsWithin (whys text.now
        (view_of book.entry.lent)
        (lines_in [] symbols.now)) out.old out.new) }
{
    let mut printed = 0;
    // No `split`: behind a last line feed it has an empty piece, which is no line, and of `split_inclusive`'s pieces no clause tells.
    let mut at = 0;
    while at < symbols.len() {
        let end = line_end(symbols, at);
        printed += tell_symbol(to, book, text, &symbols[at..end], out)?;
        at = end + 1;
    }
    Ok(printed)
}

// A script, opened, and its symbols.
fn tell_script(
    to: &impl Print,
    err: &impl Print,
    text: &[u8],
    symbols: &[u8],
    nodes: &mut [u32],
    names: &mut [u8],
    lines: &mut [u32],
    pool: &mut [u8],
    journal: &mut [u32],
    out: &mut [u8; 131200],
) -> io::Result<usize>
    requires { (length names.old ≤ 65536) × (length symbols.now ≤ input_limit) }
    ensures ok { IfOk result (λ n. PrintsLines (why_printed text.now
        (opening as_script (five nodes.old names.old lines.old pool.old journal.old)
        text.now) symbols.now) out.old n out.new) }
    ensures err { OnErr result (StopsWithin (why_printed text.now
        (opening as_script (five nodes.old names.old lines.old pool.old journal.old)
        text.now) symbols.now) out.old out.new) }
{
    let opened = open(text, nodes, names, lines, pool, journal);
    if opened.refusal != 0 {
        return refuse(to, err, text, opened.refusal, opened.place, out);
    }
    let lent = Lent {
        counts: opened.counts,
        nodes,
        names,
        lines,
        pool,
        journal,
    };
    tell_symbols(to, Held { lent }, text, symbols, out)
}

// The same in verlist's rooms: "1,024 nodes, 2,048 lines, 65,536 bytes each of names and pool".
fn tell_parts(
    to: &impl Print,
    err: &impl Print,
    text: &[u8],
    symbols: &[u8],
    out: &mut [u8; 131200],
) -> io::Result<usize>
    requires { length symbols.now ≤ input_limit }
    ensures ok { IfOk result (λ n. PrintsLines (why_printed text.now (opening as_script verlist_room text.now) symbols.now)
        out.old n out.new) }
    ensures err { OnErr result (StopsWithin (why_printed text.now (opening as_script verlist_room text.now) symbols.now)
        out.old out.new) }
{
    let mut nodes = [0u32; 3072];
    let mut names = [0u8; 65536];
    let mut lines = [0u32; 10240];
    let mut pool = [0u8; 65536];
    let mut journal = [0u32; 2];
    tell_script(
        to,
        err,
        text,
        symbols,
        &mut nodes,
        &mut names,
        &mut lines,
        &mut pool,
        &mut journal,
        out,
    )
}

// An input: the script before the line `%%`, and the symbols behind it.
fn tell_input(
    to: &impl Print,
    err: &impl Print,
    input: &[u8],
    out: &mut [u8; 131200],
) -> io::Result<usize>
    ensures ok { IfOk result (λ n. PrintsLines (why_listing verlist_room input.now) out.old n out.new) }
    ensures err { OnErr result (StopsWithin (why_listing verlist_room input.now) out.old out.new) }
{
    if INPUT_LIMIT < input.len() {
        return refuse(to, err, input, TOO_LONG, 0, out);
    }
    let end = script_end(input);
    let from = symbols_start(end, input.len());
    tell_parts(to, err, &input[..end], &input[from..], out)
}

fn list(to: &impl Print, err: &impl Print, input: &[u8]) -> io::Result<()> {
    let mut out = [0u8; 131200];
    tell_input(to, err, input, &mut out)?;
    Ok(())
}

fn main(rt: HostRuntime) -> io::Result<()> {
    let mut input = [0u8; 65537];
    let n = read_input(&mut rt.stdin(), &mut input)?;
    list(&rt, &rt.stderr(), front(&input, n))
}
