// What the programs share: the front of a buffer, an input read whole, and what the numbers that say no mean, for a person. What a person is
// told goes to `err`, the standard error.
#![tactic(auto)]

ghost use Rattle.std.specs.Prelude.{ℕ, ◌<◌, ◌≤◌, length, take, IfOk, IfErr};
ghost use Rattle.std.specs.Io.KnownBytes.{Consumes, IsAtEnd};

use input::positions::position_of;
use numbers::Refusal;
use std::io;
use std::io::{Print, Read};

// The first n bytes of s, or all of it.
pub fn front(s: &[u8], n: usize) -> &[u8] {
    &s[..n.min(s.len())]
}

// Reads until the buffer is full or the input ends, and answers how many bytes now stand at its start. An error leaves there what was read before it,
// of which `read_to_end` and `read_exact` promise less.
pub fn read_input<R: Read>(from: &mut R, buffer: &mut [u8]) -> io::Result<usize>
    ensures within { IfOk result (λ n. n ≤ length buffer.new) }
    ensures bytes { IfOk result (λ n. Consumes (R.remaining from.old) (R.remaining from.new) (take n buffer.new)) }
    ensures end { IfOk result (λ n. n < length buffer.new → IsAtEnd (R.remaining from.new)) }
    ensures err { IfErr result (λ e. (n : ℕ) × (n ≤ length buffer.new) × Consumes (R.remaining from.old) (R.remaining from.new) (take n buffer.new)) }
{
    let mut n = 0;
    while n < buffer.len() {
        let more = from.read(&mut buffer[n..])?;
        if more == 0 {
            break;
        }
        n += more;
    }
    Ok(n)
}

// For a person.
pub fn say(err: &impl Print, text: &[u8]) -> io::Result<()> {
    err.write_all(text)
}

// Where in a text: `line L, column C: `.
fn say_place(err: &impl Print, line: usize, column: usize) -> io::Result<()> {
    print!(err; "line {line}, column {column}: ")
}

// The meaning of a refusal's number.
pub fn say_meaning(err: &impl Print, no: u32) -> io::Result<()> {
    match Refusal::try_from(no) {
        Ok(refusal) => println!(err; "{refusal}"),
        Err(none) => println!(err; "{none}"),
    }
}

// A text that a program refuses: where in it, and why.
pub fn say_refused(
    err: &impl Print,
    program: &[u8],
    text: &[u8],
    place: usize,
    no: u32,
) -> io::Result<()> {
    let position = position_of(text, place);
    say(err, program)?;
    say_place(err, position.line, position.column)?;
    say_meaning(err, no)
}
