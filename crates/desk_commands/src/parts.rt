// Parts of a line of the release desk's input: a number in it, and the rest behind a place. Definitions: specs/Parts.antt.
ghost use Rattle.std.specs.Prelude.{◌≡◌, drop};
ghost use Rattle.std.specs.List.{position};
ghost use Rattle.desk_commands.specs.Parts.{digits, number_at, other};

// A number and the place behind it.
#[derive(Clone, Copy)]
pub struct Numeral {
    pub value: u32,
    pub end: usize,
}

// Where the digits end that a text begins with, if it goes on behind them.
fn digits_end(s: &[u8]) -> Option<usize>
    ensures { result ≡ position other s.now }
{
    s.iter().position(|b| !b.is_ascii_digit())
}

// The digits that stand at a place of a line.
fn digits_at(line: &[u8], at: usize) -> &[u8]
    ensures { result.now ≡ digits (drop at line.now) }
{
    let rest = tail(line, at);
    &rest[..digits_end(rest).unwrap_or(rest.len())]
}

// The number at a place of a line: one digit or more, below 2^32.
pub fn number_at(line: &[u8], at: usize) -> Option<Numeral>
    ensures { result ≡ number_at line.now at }
{
    let digits = digits_at(line, at);
    if digits.is_empty() {
        return None;
    }
    let mut value: u32 = 0;
    for b in digits {
        value = value.checked_mul(10)?.checked_add(u32::from(*b - b'0'))?;
    }
    Some(Numeral {
        value,
        end: at + digits.len(),
    })
}

// The rest of a line, from a place on; nothing past its end.
pub fn tail(line: &[u8], at: usize) -> &[u8]
    ensures { result.now ≡ drop at line.now }
{
    &line[at.min(line.len())..]
}
