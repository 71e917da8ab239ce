// The release desk: a line of its input is read as a command, done on a trial book, and answered into a lent buffer. Definitions: specs/Desk.antt.
#![tactic(auto)]

ghost use Rattle.std.specs.Prelude.{◌≡◌, false, ◌≤◌, length};
ghost use Rattle.lists.specs.Front.{front};
ghost use Rattle.book.specs.Layout.{five};
ghost use Rattle.desk.specs.Answers.{ran_with};
ghost use Rattle.desk.specs.Desk.{RunsLine, room_for, unknown_printed};
ghost use Rattle.printing.specs.Printing.{answer_room};

use crate::answering::Ran;
use crate::edits::run_edit;
use crate::questions::run_question;
use book::Counts;
use book::lent::Lent;
use desk_commands::{Command, command_of};
use numbers::NO_ROOM;
use printing::put_text;
use printing_book::shown_room;

pub mod answering;
pub mod asking;
pub mod edits;
pub mod questions;

// What is no command.
fn run_unknown(c: Counts, out: &mut [u8]) -> Ran
    requires { answer_room ≤ length out.old }
    ensures { (result ≡ ran_with c (length unknown_printed) false) × (out.new ≡ front unknown_printed out.old) }
{
    let length = put_text(out, 0, b"?\n");
    Ran {
        counts: c,
        length,
        known: false,
        refusal: 0,
    }
}

// Whether `out` has room for whatever is printed for a line.
fn has_room(c: Counts, line: usize, out: usize) -> bool
    ensures { result ≡ room_for c line out }
{
    let room = shown_room(c);
    if out < room {
        return false;
    }
    line <= out - room
}

// A line of the desk's input; the text is what was opened into the buffers. `out` has to have room for whatever is shown of the book, and for the line; where
// it has less, nothing is done, and the answer is `NO_ROOM`.
pub fn run_line(
    c: Counts,
    nodes: &[u32],
    names: &[u8],
    lines: &mut [u32],
    pool: &mut [u8],
    journal: &mut [u32],
    text: &[u8],
    line: &[u8],
    out: &mut [u8],
) -> Ran
    ensures { RunsLine text.now c
        (five nodes.now names.now lines.old pool.old journal.old)
        line.now out.old result out.new
        (five nodes.now names.now lines.new pool.new journal.new) }
{
    if !has_room(c, line.len(), out.len()) {
        return Ran {
            counts: c,
            length: 0,
            known: true,
            refusal: NO_ROOM,
        };
    }
    match command_of(line) {
        Some(Command::Edits(e)) => run_edit(c, nodes, names, lines, pool, journal, line, e, out),
        Some(Command::Asks(q)) => {
            let book = Lent {
                counts: c,
                nodes,
                names,
                lines,
                pool,
                journal,
            };
            run_question(book, text, line, q, out)
        }
        None => run_unknown(c, out),
    }
}
