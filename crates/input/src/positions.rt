// Line and column of a place in a text.
ghost use Rattle.std.specs.Prelude.{◌≡◌};
ghost use Rattle.input.specs.Positions.{position};

#[derive(Clone, Copy)]
pub struct Position {
    pub line: usize,
    pub column: usize,
}

pub fn position_of(s: &[u8], place: usize) -> Position
    ensures { result ≡ position s.now place }
{
    let mut line = 1;
    let mut column = 1;
    let before = &s[..place.min(s.len())];
    for b in before {
        if *b == b'\n' {
            line += 1;
            column = 1;
        } else {
            column += 1;
        }
    }
    Position { line, column }
}
