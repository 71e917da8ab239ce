// A line's code, by name: put together, and taken apart. 01, 'The book': "class x 4 + section x 2 + language", and 32 more where the line is struck.
ghost use Rattle.std.specs.Prelude.{◌≡◌, ◌≤◌};
ghost use Rattle.numbers.specs.Classes.{all_class};
ghost use Rattle.numbers.specs.Marks.{cxx, local};
ghost use Rattle.book.specs.Layout.{class_in, has_mark, language_in, section_in, standing_code};

use crate::STRUCK;

// The code of a line that stands.
pub fn code_of(class: u32, section: u32, language: u32) -> u32
    requires { (class ≤ all_class) × (section ≤ local) × (language ≤ cxx) }
    ensures { result ≡ standing_code class section language }
{
    class * 4 + section * 2 + language
}

pub fn class_of(code: u32) -> u32
    ensures { result ≡ class_in code }
{
    code % STRUCK / 4
}

pub fn section_of(code: u32) -> u32
    ensures { result ≡ section_in code }
{
    code % 4 / 2
}

pub fn language_of(code: u32) -> u32
    ensures { result ≡ language_in code }
{
    code % 2
}

pub fn is_struck(code: u32) -> bool
    ensures { result ≡ has_mark code }
{
    STRUCK <= code
}
