// An edit of the release desk's input, done on a trial book and answered into a lent buffer. Definitions: specs/Edits.antt. These functions are the release
// desk's own leaves: those that print ask for room.
ghost use Rattle.std.specs.Prelude.{◌≡◌, ◌-◌, ◌≤◌, length};
ghost use Rattle.book.specs.Layout.{five};
ghost use Rattle.book.specs.View.{view};
ghost use Rattle.trial.specs.Changes.{Answers};
ghost use Rattle.desk.specs.Answers.{Finishes, Runs};
ghost use Rattle.desk.specs.Edits.{done_said, edit_asked, edit_step, said};
ghost use Rattle.printing.specs.Printing.{Begins, answer_room};

use crate::answering::{Ran, printed};
use book::Counts;
use desk_commands::Edit;
use desk_commands::parts::tail;
use printing::{put_numbered, put_refused_answer, put_text};
use trial_add::add;
use trial_settle::settle;
use trial_strike::strike;
use trial_symbols::add_symbol;
use trial_undo::undo_latest;

// An edit done on a trial book.
fn make_edit(
    c: Counts,
    nodes: &[u32],
    names: &[u8],
    lines: &mut [u32],
    pool: &mut [u8],
    journal: &mut [u32],
    line: &[u8],
    e: Edit,
) -> Result<Counts, u32>
    ensures { Answers c (five nodes.now names.now lines.old pool.old journal.old)
        (λ b w. edit_asked b w line.now e)
        result (five nodes.now names.now lines.new pool.new journal.new) }
{
    match e {
        Edit::Add {
            node,
            section,
            language,
            at,
        } => add(
            c,
            nodes,
            names,
            lines,
            pool,
            journal,
            node,
            section,
            language,
            tail(line, at),
        ),
        Edit::Strike(number) => strike(c, nodes, names, lines, pool, journal, number),
        Edit::Undo => undo_latest(c, nodes, names, lines, pool, journal),
        Edit::Settle => settle(c, nodes, names, lines, pool, journal),
        Edit::Symbol { at, bare } => add_symbol(
            c,
            nodes,
            names,
            lines,
            pool,
            journal,
            tail(line, at),
            bare,
        ),
    }
}

// How much larger the first number is than the second, 0 where it is not.
fn excess(a: u32, b: u32) -> u32
    ensures { result ≡ a - b }
{
    if a < b {
        return 0;
    }
    a - b
}

// What is printed for an edit that is done. c are the counts before it, d those behind it.
fn say_done(c: Counts, d: Counts, e: Edit, out: &mut [u8]) -> usize
    requires { answer_room ≤ length out.old }
    ensures { Begins out.old (done_said c d e) out.new result }
{
    match e {
        Edit::Add { .. } => put_numbered(out, b"added", c.lines),
        Edit::Strike(number) => put_numbered(out, b"struck", number),
        Edit::Undo => put_text(out, 0, b"undone\n"),
        Edit::Settle => put_numbered(out, b"settled", d.lines),
        Edit::Symbol { .. } => put_numbered(out, b"added", excess(d.lines, c.lines)),
    }
}

// What an edit answered.
fn say_edit(c: Counts, e: Edit, r: Result<Counts, u32>, out: &mut [u8]) -> Ran
    requires { answer_room ≤ length out.old }
    ensures { Finishes c (said c e) r out.old out.new result }
{
    match r {
        Err(no) => printed(c, put_refused_answer(out, no)),
        Ok(d) => printed(d, say_done(c, d, e, out)),
    }
}

// An edit.
pub fn run_edit(
    c: Counts,
    nodes: &[u32],
    names: &[u8],
    lines: &mut [u32],
    pool: &mut [u8],
    journal: &mut [u32],
    line: &[u8],
    e: Edit,
    out: &mut [u8],
) -> Ran
    requires { answer_room ≤ length out.old }
    ensures { Runs c (five nodes.now names.now lines.old pool.old journal.old)
        (λ b w. edit_step c b w line.now e) out.old result out.new
        (five nodes.now names.now lines.new pool.new journal.new) }
{
    let r = make_edit(c, nodes, names, lines, pool, journal, line, e);
    say_edit(c, e, r, out)
}
