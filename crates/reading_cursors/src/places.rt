// The places of the grammar at which a reading can stand (specs/Places.antt).
ghost use Rattle.std.specs.Prelude.{◌≡◌};
ghost use Rattle.reading_cursors.specs.Places.{place_by};

#[derive(Clone, Copy, Debug, PartialEq, Eq)]
pub enum Place {
    // A version script: at its start; between nodes; behind a node's name; in a named node's body, and in an extern block there; in the one body of a script
    // without names, and in an extern block there.
    AtScript,
    AtNode,
    AtBody,
    InBody,
    InBodyExtern,
    InSole,
    InSoleExtern,
    // An export list: at its start; in it, and in an extern block there.
    AtList,
    InList,
    InListExtern,
    // A text of `add_symbol`: at its start, and in an extern block there; the same without semicolon; behind its matcher.
    AtSymbol,
    InSymbolExtern,
    AtBare,
    InBareExtern,
    BehindSymbol,
}

// The place that a number says; nothing more is read at a number that says no other.
impl From<u32> for Place {
    ghost from_gives = { λ n p. p ≡ place_by n };

    fn from(number: u32) -> Place {
        match number {
            0 => Place::AtScript,
            1 => Place::AtNode,
            2 => Place::AtBody,
            3 => Place::InBody,
            4 => Place::InBodyExtern,
            5 => Place::InSole,
            6 => Place::InSoleExtern,
            7 => Place::AtList,
            8 => Place::InList,
            9 => Place::InListExtern,
            10 => Place::AtSymbol,
            11 => Place::InSymbolExtern,
            12 => Place::AtBare,
            13 => Place::InBareExtern,
            _ => Place::BehindSymbol,
        }
    }
}
