// The numbers of document 01, each under one name: limits, refusals, classes, sections and languages. The same names stand in specs/, and each promise that
// uses one of these constants cites its name there, so the two are shown equal wherever they are used.
#![tactic(auto)]

ghost use Rattle.std.specs.Prelude.{◌≡◌};
ghost use Rattle.numbers.specs.Editions.{edition_by};
ghost use Rattle.numbers.specs.Saying.{Tells, number};

use std::fmt;

// "Limits, last accepted".
pub const SCRIPT_LIMIT: usize = 1048576;

pub const TOKEN_LIMIT: usize = 65536;

pub const NAME_LIMIT: usize = 65536;

pub const RAW_NAME_LIMIT: usize = 4096;

pub const VERSION_LIMIT: usize = 4096;

pub const NODE_LIMIT: usize = 1024;

pub const LINE_LIMIT: usize = 16384;

pub const POOL_LIMIT: usize = 2097152;

pub const EDIT_LIMIT: usize = 4096;

// "Numbers that say no".
pub const TOO_LONG: u32 = 1;

pub const UNREADABLE: u32 = 2;

pub const UNCLOSED: u32 = 3;

pub const BAD_EXTERN: u32 = 4;

pub const GLOB_NOT_UTF8: u32 = 5;

pub const BAD_PATTERN: u32 = 6;

pub const UNKNOWN_PARENT: u32 = 7;

pub const NO_ROOM: u32 = 8;

pub const NAME_NOT_UTF8: u32 = 9;

pub const UNKNOWN_VERSION: u32 = 10;

pub const NO_SUCH: u32 = 11;

pub const NOTHING_TO_UNDO: u32 = 12;

pub const WRONG_KIND: u32 = 13;

pub const NO_BOOK: u32 = 14;

// The same by name. `number` gives 01's number.
#[derive(Clone, Copy, Debug, PartialEq, Eq)]
pub enum Refusal {
    TooLong = 1,
    Unreadable = 2,
    Unclosed = 3,
    BadExtern = 4,
    GlobNotUtf8 = 5,
    BadPattern = 6,
    UnknownParent = 7,
    NoRoom = 8,
    NameNotUtf8 = 9,
    UnknownVersion = 10,
    NoSuch = 11,
    NothingToUndo = 12,
    WrongKind = 13,
    NoBook = 14,
}

impl Refusal {
    pub fn number(self) -> u32
        ensures { result ≡ number self }
    {
        self as u32
    }
}

// What it means, for a person.
impl fmt::Display for Refusal {
    fn fmt<W: fmt::Write>(&self, f: &mut fmt::Formatter<W>) -> fmt::Result {
        f.write_str(match self {
            Refusal::TooLong => "a text, a token or a name is too long",
            Refusal::Unreadable => "nothing that may stand here, or bytes behind the end",
            Refusal::Unclosed => "a comment that is not closed, or an extern block without its `}`",
            Refusal::BadExtern =>
                "extern of another language than C or C++, or within an extern block",
            Refusal::GlobNotUtf8 => "a pattern that is not UTF-8",
            Refusal::BadPattern => "a bracket that is not closed",
            Refusal::UnknownParent => "a parent that no earlier node is",
            Refusal::NoRoom => "no room is left",
            Refusal::NameNotUtf8 => "a name that is not UTF-8",
            Refusal::UnknownVersion => "a version that no node has",
            Refusal::NoSuch => "no such node, section, language or standing line",
            Refusal::NothingToUndo => "no edit is left to undo",
            Refusal::WrongKind => "a book of this kind does not answer that",
            Refusal::NoBook => "this is no book",
        })
    }
}

// A number that no refusal has.
#[derive(Clone, Copy, Debug, PartialEq, Eq)]
pub struct NoRefusal(pub u32);

// A number from outside, as a program prints it.
impl TryFrom<u32> for Refusal {
    type Error = NoRefusal;

    ghost try_from_gives = { Tells };

    fn try_from(number: u32) -> Result<Self, NoRefusal> {
        match number {
            1 => Ok(Refusal::TooLong),
            2 => Ok(Refusal::Unreadable),
            3 => Ok(Refusal::Unclosed),
            4 => Ok(Refusal::BadExtern),
            5 => Ok(Refusal::GlobNotUtf8),
            6 => Ok(Refusal::BadPattern),
            7 => Ok(Refusal::UnknownParent),
            8 => Ok(Refusal::NoRoom),
            9 => Ok(Refusal::NameNotUtf8),
            10 => Ok(Refusal::UnknownVersion),
            11 => Ok(Refusal::NoSuch),
            12 => Ok(Refusal::NothingToUndo),
            13 => Ok(Refusal::WrongKind),
            14 => Ok(Refusal::NoBook),
            _ => Err(NoRefusal(number)),
        }
    }
}

impl fmt::Display for NoRefusal {
    fn fmt<W: fmt::Write>(&self, f: &mut fmt::Formatter<W>) -> fmt::Result {
        f.write_str("a number that no refusal has")
    }
}

// "Classes: 0 Exact, 1 Escaped, 2 NonStar, 3 Star, 4 All".
pub const EXACT_CLASS: u32 = 0;

pub const ESCAPED_CLASS: u32 = 1;

pub const NONSTAR_CLASS: u32 = 2;

pub const STAR_CLASS: u32 = 3;

pub const ALL_CLASS: u32 = 4;

// "Section 1 is local, language 1 C++."
pub const GLOBAL: u32 = 0;

pub const LOCAL: u32 = 1;

pub const GENERAL: u32 = 0;

pub const CXX: u32 = 1;

// How texts and patterns are read. There is one way today, reld's; document 02 (request 06) brings a second. The definitions that promises cite of a pattern's
// spelling, of a skip and of a token's end take the edition already, and so do the functions.
#[derive(Clone, Copy, Debug, PartialEq, Eq)]
pub enum Edition {
    Reld,
}

// The edition that a number says: there is one.
impl From<u32> for Edition {
    ghost from_gives = { λ n e. e ≡ edition_by n };

    fn from(_number: u32) -> Edition {
        Edition::Reld
    }
}
