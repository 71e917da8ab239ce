// The commands of the release desk, one a line of its input. Definitions: specs/Commands.antt.
#![tactic(auto)]

ghost use Rattle.std.specs.Prelude.{◌≡◌};
ghost use Rattle.desk_commands.specs.Commands.{add_command, command_of, field_at, question_of, strike_command};

use crate::parts::{Numeral, number_at};
use linker_script::byte_at;

pub mod parts;

// An edit; `at` is where a token or a text begins in its line.
#[derive(Clone, Copy)]
pub enum Edit {
    Add {
        node: u32,
        section: u32,
        language: u32,
        at: usize,
    },
    Strike(u32),
    Undo,
    Settle,
    Symbol {
        at: usize,
        bare: bool,
    },
}

// What is shown of a book: its counts, its lines, what its buffers hold.
#[derive(Clone, Copy)]
pub enum Shown {
    Counts,
    Lines,
    Dump,
}

// A question; a name begins at a place of its line. `Ask` asks for its version, locality or membership, `Why` for the line that decides.
#[derive(Clone, Copy)]
pub enum Question {
    Ask(usize),
    Why(usize),
    Show(Shown),
}

#[derive(Clone, Copy)]
pub enum Command {
    Edits(Edit),
    Asks(Question),
}

// The number at a place of a line, a blank behind it, and the place behind that.
fn field_at(line: &[u8], at: usize) -> Option<Numeral>
    ensures { result ≡ field_at line.now at }
{
    let number = number_at(line, at)?;
    if byte_at(line, number.end) != b' ' {
        return None;
    }
    Some(Numeral {
        end: number.end + 1,
        ..number
    })
}

// `add NODE SECTION LANGUAGE TOKEN`
fn add_command(line: &[u8]) -> Option<Command>
    ensures { result ≡ add_command line.now }
{
    let node = field_at(line, 4)?;
    let section = field_at(line, node.end)?;
    let language = field_at(line, section.end)?;
    Some(Command::Edits(Edit::Add {
        node: node.value,
        section: section.value,
        language: language.value,
        at: language.end,
    }))
}

// `strike LINE`
fn strike_command(line: &[u8]) -> Option<Command>
    ensures { result ≡ strike_command line.now }
{
    let number = number_at(line, 7)?;
    if number.end != line.len() {
        return None;
    }
    Some(Command::Edits(Edit::Strike(number.value)))
}

// A line as a question.
fn question_of(line: &[u8]) -> Option<Command>
    ensures { result ≡ question_of line.now }
{
    if line.starts_with(b"ask ") {
        return Some(Command::Asks(Question::Ask(4)));
    }
    if line.starts_with(b"why ") {
        return Some(Command::Asks(Question::Why(4)));
    }
    if line == b"counts".as_slice() {
        return Some(Command::Asks(Question::Show(Shown::Counts)));
    }
    if line == b"lines".as_slice() {
        return Some(Command::Asks(Question::Show(Shown::Lines)));
    }
    if line == b"dump".as_slice() {
        return Some(Command::Asks(Question::Show(Shown::Dump)));
    }
    None
}

// A line as a command.
pub fn command_of(line: &[u8]) -> Option<Command>
    ensures { result ≡ command_of line.now }
{
    if line.starts_with(b"add ") {
        return add_command(line);
    }
    if line.starts_with(b"strike ") {
        return strike_command(line);
    }
    if line == b"undo".as_slice() {
        return Some(Command::Edits(Edit::Undo));
    }
    if line == b"settle".as_slice() {
        return Some(Command::Edits(Edit::Settle));
    }
    if line.starts_with(b"symbol ") {
        return Some(Command::Edits(Edit::Symbol { at: 7, bare: false }));
    }
    if line.starts_with(b"symbol! ") {
        return Some(Command::Edits(Edit::Symbol { at: 8, bare: true }));
    }
    question_of(line)
}
