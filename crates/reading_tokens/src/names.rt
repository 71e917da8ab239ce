// The bytes of a node's name.
ghost use Rattle.std.specs.Prelude.{◌≡◌};
ghost use Rattle.reading_tokens.specs.Tokens.{named};

// Outside space ( ) { } LF tab.
pub fn is_named(b: u8) -> bool
    ensures { result ≡ named b }
{
    b != b' '
        && (b != b'(' && (b != b')' && (b != b'{' && (b != b'}' && (b != b'\n' && b != b'\t')))))
}
