// The whole of what verlist prints, into a lent buffer.
#![tactic(auto)]

ghost use Rattle.std.specs.Prelude.{◌≡◌, cond, ◌+◌, ◌≤◌, leb, length};
ghost use Rattle.book.specs.Layout.{five};
ghost use Rattle.input.specs.Splitting.{mark, part_before};
ghost use Rattle.printing_listing.specs.Listing.{Lists, nothing_listed, room_for};

use crate::script::{Listed, render_script, render_too_long};
use input::splitting::find_mark;
use numbers::NO_ROOM;
use printing_symbols::TAIL_ROOM;

pub mod script;
pub mod symbols;

// The longest input.
pub const INPUT_LIMIT: usize = 65536;

// Whether `out` has room for whatever is printed for an input of that length.
fn has_room(text: usize, out: usize) -> bool
    ensures { result ≡ room_for text out }
{
    if out < TAIL_ROOM {
        return false;
    }
    text <= (out - TAIL_ROOM) / 15
}

// Where `out` has no room.
fn nothing_listed() -> Listed
    ensures { result ≡ nothing_listed }
{
    Listed {
        length: 0,
        refusal: NO_ROOM,
        place: 0,
    }
}

// Where the script ends: before the line `%%`, or with the input.
pub fn script_end(text: &[u8]) -> usize
    ensures { result ≡ length (part_before text.now (mark text.now)) }
{
    match find_mark(text) {
        None => text.len(),
        Some(p) => p,
    }
}

// Where the symbols' lines begin: behind the three bytes of that line, or at the input's end.
pub fn symbols_start(end: usize, text: usize) -> usize
    requires { end ≤ text }
    ensures { result ≡ cond (leb text (end + 3)) text (end + 3) }
{
    if text - end <= 3 {
        return text;
    }
    end + 3
}

// What is printed for an input, whole. `out` has to have room for 48 bytes and 15 for each byte of the input. Where it has less, nothing is done, and the
// answer is `NO_ROOM` with the length 0: a refusal of 0 says that the input is listed, and a script that is refused has a line.
pub fn render_listing(
    text: &[u8],
    nodes: &mut [u32],
    names: &mut [u8],
    lines: &mut [u32],
    pool: &mut [u8],
    journal: &mut [u32],
    out: &mut [u8],
) -> Listed
    ensures { Lists (five nodes.old names.old lines.old pool.old journal.old)
        text.now out.old result out.new
        (five nodes.new names.new lines.new pool.new journal.new) }
{
    if !has_room(text.len(), out.len()) {
        return nothing_listed();
    }
    if INPUT_LIMIT < text.len() {
        return render_too_long(nodes, names, lines, pool, journal, out);
    }
    let end = script_end(text);
    let from = symbols_start(end, text.len());
    render_script(
        &text[..end],
        &text[from..],
        nodes,
        names,
        lines,
        pool,
        journal,
        out,
    )
}
