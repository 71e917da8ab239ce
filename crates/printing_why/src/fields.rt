// The pieces of the line that says why, each put into a lent buffer that has room. Definitions: specs/WhyLine.antt.
ghost use Rattle.std.specs.Prelude.{◌≡◌, true, ◌+◌, ◌≤◌, ◌<◌, length};
ghost use Rattle.packing.specs.Tables.{packs, things};
ghost use Rattle.book.specs.Layout.{node_form};
ghost use Rattle.book.specs.View.{any_node};
ghost use Rattle.reasons.specs.declared.Reason.{Reason};
ghost use Rattle.reasons.specs.declared.Why.TheVariants as variant;
ghost use Rattle.printing.specs.Printing.{Begins, Puts, refused_fields};
ghost use Rattle.printing_why.specs.WhyLine.{answer_line, class_word, head_told, language_word, marks_told, name_told, offset_told, place_told};
ghost use Rattle.printing_why.specs.WhyLine.{reason_told, section_word, why_line, why_room};

use book::rows::node_name;
use input::positions::position_of;
use numbers::{ESCAPED_CLASS, EXACT_CLASS, GENERAL, GLOBAL, NONSTAR_CLASS, Refusal, STAR_CLASS};
use printing::{put_number, put_refused_fields, put_spaced, put_text};
use reasons::{Reason, Why};

// A class by its name, from a place on, and the place behind it.
fn put_class(out: &mut [u8], at: usize, class: u32) -> usize
    requires { at + 7 ≤ length out.old }
    ensures { Puts out.old at (class_word class) out.new result }
{
    if class == EXACT_CLASS {
        return put_text(out, at, b"Exact");
    }
    if class == ESCAPED_CLASS {
        return put_text(out, at, b"Escaped");
    }
    if class == NONSTAR_CLASS {
        return put_text(out, at, b"NonStar");
    }
    if class == STAR_CLASS {
        return put_text(out, at, b"Star");
    }
    put_text(out, at, b"All")
}

fn put_section(out: &mut [u8], at: usize, section: u32) -> usize
    requires { at + 6 ≤ length out.old }
    ensures { Puts out.old at (section_word section) out.new result }
{
    if section == GLOBAL {
        return put_text(out, at, b"global");
    }
    put_text(out, at, b"local")
}

fn put_language(out: &mut [u8], at: usize, language: u32) -> usize
    requires { at + 7 ≤ length out.old }
    ensures { Puts out.old at (language_word language) out.new result }
{
    if language == GENERAL {
        return put_text(out, at, b"general");
    }
    put_text(out, at, b"C++")
}

// The line's number, class and node.
fn put_head(out: &mut [u8], at: usize, r: Reason) -> usize
    requires { at + 45 ≤ length out.old }
    ensures { Puts out.old at (head_told r) out.new result }
{
    let a = put_spaced(out, at, b"line", r.line);
    let b = put_text(out, a, b" class ");
    let c = put_class(out, b, r.class);
    put_spaced(out, c, b" node", r.node)
}

// A node's name.
fn put_name(out: &mut [u8], at: usize, name: &[u8]) -> usize
    requires { at + length name.now + 3 ≤ length out.old }
    ensures { Puts out.old at (name_told name.now) out.new result }
{
    let a = put_text(out, at, b" (");
    let b = put_text(out, a, name);
    put_text(out, b, b")")
}

// The section and the language.
fn put_marks(out: &mut [u8], at: usize, r: Reason) -> usize
    requires { at + 32 ≤ length out.old }
    ensures { Puts out.old at (marks_told r) out.new result }
{
    let a = put_text(out, at, b" section ");
    let b = put_section(out, a, r.section);
    let c = put_text(out, b, b" language ");
    put_language(out, c, r.language)
}

// Line and column of the place that an offset tells, where it tells one.
fn put_place(out: &mut [u8], at: usize, text: &[u8], offset: u32) -> usize
    requires { at + 25 ≤ length out.old }
    ensures { Puts out.old at (place_told text.now offset) out.new result }
{
    if offset == 0 {
        return at;
    }
    let q = position_of(text, (offset - 1) as usize);
    let a = put_spaced(out, at, b" at", q.line as u32);
    let b = put_text(out, a, b":");
    put_number(out, b, q.column as u32)
}

// The offset, and the place that it tells.
fn put_offset(out: &mut [u8], at: usize, text: &[u8], r: Reason) -> usize
    requires { at + 43 ≤ length out.old }
    ensures { Puts out.old at (offset_told text.now r) out.new result }
{
    let a = put_spaced(out, at, b" offset", r.offset);
    put_place(out, a, text, r.offset)
}

// A line, in a node with that name.
fn put_reason(out: &mut [u8], at: usize, text: &[u8], node: &[u8], r: Reason) -> usize
    requires { at + length node.now + 123 ≤ length out.old }
    ensures { Puts out.old at (reason_told text.now node.now r) out.new result }
{
    let a = put_head(out, at, r);
    let b = put_name(out, a, node);
    let c = put_marks(out, b, r);
    put_offset(out, c, text, r)
}

// A name and an answer of a few words, as a line.
fn put_answer(out: &mut [u8], name: &[u8], answer: &[u8]) -> usize
    requires { length name.now + length answer.now + 2 ≤ length out.old }
    ensures { Begins out.old (answer_line name.now answer.now) out.new result }
{
    let a = put_text(out, 0, name);
    let b = put_text(out, a, b" ");
    let c = put_text(out, b, answer);
    put_text(out, c, b"\n")
}

// A name and a refusal, as a line.
pub fn put_refused_name(out: &mut [u8], name: &[u8], no: u32) -> usize
    requires { length name.now + why_room ≤ length out.old }
    ensures { Begins out.old (answer_line name.now (refused_fields no)) out.new result }
{
    let a = put_text(out, 0, name);
    let b = put_text(out, a, b" ");
    let c = put_refused_fields(out, b, no);
    put_text(out, c, b"\n")
}

// A name and a line, in a node with that name, as a line.
fn put_line(out: &mut [u8], text: &[u8], name: &[u8], node: &[u8], r: Reason) -> usize
    requires { length name.now + length node.now + why_room ≤ length out.old }
    ensures { Begins out.old (answer_line name.now (reason_told text.now node.now r)) out.new result }
{
    let a = put_text(out, 0, name);
    let b = put_text(out, a, b" ");
    let c = put_reason(out, b, text, node, r);
    put_text(out, c, b"\n")
}

// A name, and why it is answered as it is, among n nodes, whose names end at m.
fn put_told(
    out: &mut [u8],
    text: &[u8],
    nodes: &[u32],
    names: &[u8],
    n: u32,
    m: u32,
    name: &[u8],
    y: Why,
) -> usize
    requires { (packs node_form any_node n m nodes.now names.now ≡ true) × (length name.now + m + why_room ≤ length out.old)
        × ((r : Reason) → y ≡ variant.Line r → r.node < n) }
    ensures { Begins out.old
        (why_line text.now (things node_form n nodes.now names.now) name.now (Ok y)) out.new result }
{
    match y {
        Why::Line(r) => put_line(out, text, name, node_name(nodes, names, r.node as usize), r),
        Why::NoLine => put_answer(out, name, b"no line"),
        Why::Wanted => put_answer(out, name, b"wanted version"),
    }
}

// The same, or what refuses it.
pub fn put_why_line(
    out: &mut [u8],
    text: &[u8],
    nodes: &[u32],
    names: &[u8],
    n: u32,
    m: u32,
    name: &[u8],
    y: Result<Why, Refusal>,
) -> usize
    requires { (packs node_form any_node n m nodes.now names.now ≡ true) × (length name.now + m + why_room ≤ length out.old)
        × ((r : Reason) → y ≡ Ok (variant.Line r) → r.node < n) }
    ensures { Begins out.old
        (why_line text.now (things node_form n nodes.now names.now) name.now y) out.new result }
{
    match y {
        Ok(y) => put_told(out, text, nodes, names, n, m, name, y),
        Err(no) => put_refused_name(out, name, no.number()),
    }
}
