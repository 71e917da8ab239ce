// The release desk: edits of a trial book and questions to it. Standard input (65,536 bytes at most): a version script, or with the argument `export` an export
// list, a line `%%`, then one command a line. What is printed for a command is rendered by `desk::run_line`; a text that is refused prints `refused` and the
// number alone. Standard error says what `! N` means, and of a text that is refused where and why. The commands are run in their order, each on what the one
// before it left, and none of them lacks room for what it prints: rounds has the definitions and the theorem.
#![tactic(auto)]

ghost use Rattle.std.specs.Prelude.{◌≡◌, [], cond, ◌≤◌, length, IfOk, OnOk, OnErr};
ghost use Rattle.input.specs.Splitting.{input_limit, lines_in};
ghost use Rattle.lists.specs.Front.{front};
ghost use Rattle.book.specs.Layout.{five};
ghost use Rattle.book_opening.specs.Opening.{as_list, as_script};
ghost use Rattle.desk.specs.Desk.{line_step};
ghost use Rattle.rounds.specs.Rounds.{DeskRooms, Reached, desk_left, line_lent, lines_lent, with_counts};
ghost use Rattle.trial_desk.specs.Stops.{DeskStops, RunsSome};

use book::Counts;
use book_opening::How;
use desk::run_line;
use desk_commands::parts::{number_at, tail};
use input::splitting::{find_mark, line_end};
use linker_script::byte_at;
use meanings::{front, read_input, say, say_meaning, say_refused};
use numbers::TOO_LONG;
use printing::put_refused_line;
use std::env::{Env, FillError};
use std::io;
use std::io::{Print, Read};

// The longest input.
const INPUT_LIMIT: usize = 65536;

// A text that is refused: the number, and for a person where and why.
fn refuse(
    to: &impl Print,
    err: &impl Print,
    text: &[u8],
    no: u32,
    place: usize,
    out: &mut [u8; 1048576],
) -> io::Result<()> {
    let length = put_refused_line(out, no);
    to.write_all(front(out, length))?;
    say_refused(err, b"trial_desk: ", text, place, no)
}

// What a line `! N` means.
fn explain(err: &impl Print, printed: &[u8]) -> io::Result<()> {
    if byte_at(printed, 0) != b'!' {
        return Ok(());
    }
    match number_at(printed, 2) {
        Some(number) if byte_at(printed, number.end) == b'\n' => {
            say(err, b"trial_desk: ")?;
            say_meaning(err, number.value)
        }
        _ => Ok(()),
    }
}

// What is known, where a line is no command.
fn say_known(err: &impl Print) -> io::Result<()> {
    say(
        err,
        b"trial_desk: known are add NODE SECTION LANGUAGE TOKEN, strike LINE, undo, settle, symbol TEXT, symbol! TEXT, ",
    )?;
    say(
        err,
        b"ask NAME[@VERSION][<TAB>DEMANGLED], why NAME[@VERSION][<TAB>DEMANGLED], counts, lines and dump\n",
    )
}

// What a line prints, and what a person is told of it.
fn tell(to: &impl Print, err: &impl Print, printed: &[u8], known: bool) -> io::Result<()> {
    to.write_all(printed)?;
    if !known {
        say_known(err)?;
    }
    explain(err, printed)
}

// A command's line, which has room for what it prints, at the start of `out`; the counts behind it. The text is what was opened.
fn run_command(
    to: &impl Print,
    err: &impl Print,
    c: Counts,
    nodes: &[u32],
    names: &[u8],
    lines: &mut [u32],
    pool: &mut [u8],
    journal: &mut [u32],
    text: &[u8],
    line: &[u8],
    out: &mut [u8; 1048576],
) -> io::Result<Counts>
    requires { Reached text.now (with_counts c (five nodes.now names.now lines.old pool.old journal.old))
        × (length line.now ≤ input_limit) }
    ensures ok { IfOk result (λ r. with_counts r (five nodes.now names.now lines.new pool.new journal.new)
        ≡ line_lent text.now
        (with_counts c (five nodes.now names.now lines.old pool.old journal.old)) line.now) }
    ensures err { OnErr result (five nodes.now names.now lines.new pool.new journal.new
        ≡ (line_lent text.now
        (with_counts c (five nodes.now names.now lines.old pool.old journal.old)) line.now).buffers) }
    ensures printed { out.new ≡ front (line_step text.now c
        (five nodes.now names.now lines.old pool.old journal.old) line.now).printed
        out.old }
{
    let ran = run_line(c, nodes, names, lines, pool, journal, text, line, out);
    tell(to, err, front(out, ran.length), ran.known)?;
    Ok(ran.counts)
}

// The commands, one a line; a last line feed may lack.
fn run_commands(
    to: &impl Print,
    err: &impl Print,
    opened: Counts,
    nodes: &[u32],
    names: &[u8],
    lines: &mut [u32],
    pool: &mut [u8],
    journal: &mut [u32],
    text: &[u8],
    commands: &[u8],
    out: &mut [u8; 1048576],
) -> io::Result<Counts>
    requires { Reached text.now (with_counts opened (five nodes.now names.now lines.old pool.old journal.old))
        × (length commands.now ≤ input_limit) }
    ensures ok { IfOk result (λ r. with_counts r (five nodes.now names.now lines.new pool.new journal.new)
        ≡ lines_lent text.now
        (with_counts opened (five nodes.now names.now lines.old pool.old journal.old))
        (lines_in [] commands.now)) }
    ensures err { OnErr result (RunsSome text.now
        (with_counts opened (five nodes.now names.now lines.old pool.old journal.old))
        (lines_in [] commands.now) (five nodes.now names.now lines.new pool.new journal.new)) }
{
    let mut c = opened;
    // No `split`: behind a last line feed it has an empty piece, which is no line, and of `split_inclusive`'s pieces no clause tells.
    let mut at = 0;
    while at < commands.len() {
        let end = line_end(commands, at);
        c = run_command(
            to,
            err,
            c,
            nodes,
            names,
            lines,
            pool,
            journal,
            text,
            &commands[at..end],
            out,
        )?;
        at = end + 1;
    }
    Ok(c)
}

// How a text is opened: as an export list, or as a version script.
fn how_of(export: bool) -> How
    ensures { result ≡ cond export as_list as_script }
{
    if export {
        return How::LIST;
    }
    How::SCRIPT
}

fn work(
    to: &impl Print,
    err: &impl Print,
    export: bool,
    text: &[u8],
    commands: &[u8],
    nodes: &mut [u32],
    names: &mut [u8],
    lines: &mut [u32],
    pool: &mut [u8],
    journal: &mut [u32],
    out: &mut [u8; 1048576],
) -> io::Result<()>
    requires { DeskRooms (five nodes.old names.old lines.old pool.old journal.old) × (length commands.now ≤ input_limit) }
    ensures ok { OnOk result (five nodes.new names.new lines.new pool.new journal.new
        ≡ desk_left (cond export as_list as_script)
        (five nodes.old names.old lines.old pool.old journal.old)
        text.now commands.now) }
    ensures err { OnErr result (DeskStops (cond export as_list as_script)
        (five nodes.old names.old lines.old pool.old journal.old)
        text.now commands.now (five nodes.new names.new lines.new pool.new journal.new)) }
{
    let how = how_of(export);
    let opened = book_opening::open(how, text, nodes, names, lines, pool, journal);
    if opened.refusal != 0 {
        return refuse(to, err, text, opened.refusal, opened.place, out);
    }
    run_commands(
        to,
        err,
        opened.counts,
        nodes,
        names,
        lines,
        pool,
        journal,
        text,
        commands,
        out,
    )?;
    Ok(())
}

// Room for 1,024 nodes, 4,096 lines, 65,536 bytes each of names and pool, and 1,024 edits. `out` has the room that `run_line` asks for with these and the
// longest line.
fn sit(
    to: &impl Print,
    err: &impl Print,
    export: bool,
    text: &[u8],
    commands: &[u8],
    out: &mut [u8; 1048576],
) -> io::Result<()>
    requires { length commands.now ≤ input_limit }
{
    let mut nodes = [0u32; 3072];
    let mut names = [0u8; 65536];
    let mut lines = [0u32; 20480];
    let mut pool = [0u8; 65536];
    let mut journal = [0u32; 2048];
    work(
        to,
        err,
        export,
        text,
        commands,
        &mut nodes,
        &mut names,
        &mut lines,
        &mut pool,
        &mut journal,
        out,
    )
}

fn divide(
    to: &impl Print,
    err: &impl Print,
    export: bool,
    input: &[u8],
    out: &mut [u8; 1048576],
) -> io::Result<()> {
    if INPUT_LIMIT < input.len() {
        return refuse(to, err, input, TOO_LONG, 0, out);
    }
    match find_mark(input) {
        None => sit(to, err, export, input, &input[..0], out),
        Some(p) => sit(to, err, export, &input[..p], tail(input, p + 3), out),
    }
}

fn read(from: &mut impl Read, to: &impl Print, err: &impl Print, export: bool) -> io::Result<()> {
    let mut input = [0u8; 65537];
    let mut out = [0u8; 1048576];
    let n = read_input(from, &mut input)?;
    divide(to, err, export, front(&input, n), &mut out)
}

fn main(rt: HostRuntime) -> io::Result<()> {
    let err = rt.stderr();
    let mut word = [0u8; 8];
    match rt.arg(1, &mut word) {
        Err(FillError::NotPresent) => return read(&mut rt.stdin(), &rt, &err, false),
        Err(FillError::TooLong) => {}
        Ok(n) => {
            if front(&word, n) == b"export".as_slice() {
                return read(&mut rt.stdin(), &rt, &err, true);
            }
        }
    }
    say(
        &err,
        b"trial_desk: the one argument that is known is export, for an export list\n",
    )
}
