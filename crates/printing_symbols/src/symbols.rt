// The lines that verlist prints for symbols, each at the start of a lent buffer that has room. Definitions: specs/Lines.antt, from document 01, 'Known points'
// (the program `verlist`).
ghost use Rattle.std.specs.Prelude.{◌+◌, ◌≤◌, length};
ghost use Rattle.printing.specs.Printing.{Begins, Puts};
ghost use Rattle.printing_symbols.specs.Lines.{fields, index_field, locality_field, symbol_line, tail_room};

use lookups::answers::{Locality, Version};
use lookups::index::VersionIndex;
use numbers::Refusal;
use printing::{put_number, put_refused_fields, put_text};

// An index, or `-`.
fn put_index(out: &mut [u8], at: usize, v: Option<VersionIndex>) -> usize
    requires { at + 10 ≤ length out.old }
    ensures { Puts out.old at (index_field v) out.new result }
{
    match v {
        Some(i) => put_number(out, at, i.number()),
        None => put_text(out, at, b"-"),
    }
}

fn put_place(out: &mut [u8], at: usize, l: Locality) -> usize
    requires { at + 2 ≤ length out.old }
    ensures { Puts out.old at (locality_field (Some l)) out.new result }
{
    match l {
        Locality::Global => put_text(out, at, b" G"),
        Locality::Local => put_text(out, at, b" L"),
    }
}

// G, L or `-`, behind a blank.
fn put_locality(out: &mut [u8], at: usize, l: Option<Locality>) -> usize
    requires { at + 2 ≤ length out.old }
    ensures { Puts out.old at (locality_field l) out.new result }
{
    match l {
        Some(l) => put_place(out, at, l),
        None => put_text(out, at, b" -"),
    }
}

// The two fields behind a name.
fn put_fields(out: &mut [u8], at: usize, v: Version, l: Result<Option<Locality>, Refusal>) -> usize
    requires { at + 14 ≤ length out.old }
    ensures { Puts out.old at (fields v l) out.new result }
{
    match v {
        Err(no) => put_refused_fields(out, at, no.number()),
        Ok(v) => match l {
            Err(no) => put_refused_fields(out, at, no.number()),
            Ok(l) => {
                let end = put_index(out, at, v);
                put_locality(out, end, l)
            }
        },
    }
}

// A symbol's line, with its name.
pub fn put_symbol_line(
    out: &mut [u8],
    name: &[u8],
    v: Version,
    l: Result<Option<Locality>, Refusal>,
) -> usize
    requires { length name.now + tail_room ≤ length out.old }
    ensures { Begins out.old (symbol_line name.now v l) out.new result }
{
    let a = put_text(out, 0, name);
    let b = put_text(out, a, b" ");
    let c = put_fields(out, b, v, l);
    put_text(out, c, b"\n")
}
