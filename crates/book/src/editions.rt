// How a book's patterns are read.
ghost use Rattle.std.specs.Prelude.{◌≡◌};
ghost use Rattle.book.specs.Books.{edition_of};

use crate::Frame;
use numbers::Edition;

// How the patterns of a book with that frame are read.
pub fn edition_of(frame: Frame) -> Edition
    ensures { result ≡ edition_of frame }
{
    Edition::Reld
}
