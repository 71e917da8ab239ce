// Numbers and bytes put into a lent buffer, for what the programs print. Definitions: specs/Printing.antt. A place is handed in and the next one answered, and
// nothing is put by `write!`: no clause of std says when a `write!` into a lent buffer succeeds, and these always do.
#![tactic(auto)]

ghost use Rattle.std.specs.Prelude.{◌≡◌, ◌+◌, ◌≤◌, length};
ghost use Rattle.printing.specs.Printing.{Begins, Puts, decimal, numbered, refused_answer, refused_fields, refused_line, spaced};

use copying::put_bytes;

// How many decimal digits a number has.
fn places(n: u32) -> usize
    ensures { result ≡ length (decimal n) }
{
    let mut k = 1;
    let mut rest = n / 10;
    while 0 < rest {
        rest /= 10;
        k += 1;
    }
    k
}

// A number in decimal digits, from a place on, and the place behind it.
pub fn put_number(out: &mut [u8], at: usize, n: u32) -> usize
    requires { at + 10 ≤ length out.old }
    ensures { Puts out.old at (decimal n) out.new result }
{
    let end = at + places(n);
    let mut rest = n;
    for i in (at..end).rev() {
        out[i] = b'0' + ((rest % 10) as u8);
        rest /= 10;
    }
    end
}

// Bytes from a place on, and the place behind them.
pub fn put_text(out: &mut [u8], at: usize, text: &[u8]) -> usize
    requires { at + length text.now ≤ length out.old }
    ensures { Puts out.old at text.now out.new result }
{
    put_bytes(out, at, text);
    at + text.len()
}

// A word, a blank and a number, from a place on, and the place behind them.
pub fn put_spaced(out: &mut [u8], at: usize, word: &[u8], n: u32) -> usize
    requires { at + length word.now + 11 ≤ length out.old }
    ensures { Puts out.old at (spaced word.now n) out.new result }
{
    let a = put_text(out, at, word);
    let b = put_text(out, a, b" ");
    put_number(out, b, n)
}

// The same as a line, at the start of a buffer.
pub fn put_numbered(out: &mut [u8], word: &[u8], n: u32) -> usize
    requires { length word.now + 12 ≤ length out.old }
    ensures { Begins out.old (numbered word.now n) out.new result }
{
    let end = put_spaced(out, 0, word, n);
    put_text(out, end, b"\n")
}

// `refused`, a refusal's number and the end of the line, at the start of a buffer.
pub fn put_refused_line(out: &mut [u8], no: u32) -> usize
    requires { 19 ≤ length out.old }
    ensures { Begins out.old (refused_line no) out.new result }
{
    put_numbered(out, b"refused", no)
}

// `!` and a refusal's number.
pub fn put_refused_fields(out: &mut [u8], at: usize, no: u32) -> usize
    requires { at + 12 ≤ length out.old }
    ensures { Puts out.old at (refused_fields no) out.new result }
{
    put_spaced(out, at, b"!", no)
}

// The same as a line, at the start of a buffer.
pub fn put_refused_answer(out: &mut [u8], no: u32) -> usize
    requires { 13 ≤ length out.old }
    ensures { Begins out.old (refused_answer no) out.new result }
{
    put_numbered(out, b"!", no)
}
