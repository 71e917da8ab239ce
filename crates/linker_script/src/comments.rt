// The skip function of linker_script.rs, past blanks and comments, and the first place of two bytes, which ends a comment. Definitions:
// linker_script/specs/Skip.antt and Finding.antt. Every place is answered, also past the end.
ghost use Rattle.std.specs.Prelude.{◌≡◌, ◌+◌, ◌<◌, length, get_or};
ghost use Rattle.linker_script.specs.Finding.{first_from, are};
ghost use Rattle.linker_script.specs.Skip.{blank, comment_end, skip};

use crate::byte_at;
use crate::searching::find;
use numbers::Edition;

fn is_pair(s: &[u8], i: usize, x: u8, y: u8) -> bool
    requires { i < length s.now }
    ensures { result ≡ are x y (get_or s.now i 0) (get_or s.now (i + 1) 0) }
{
    s[i] == x && byte_at(s, i + 1) == y
}

// The first place of x with y behind it, from a place on. A 0 stands behind the last byte.
pub fn find_pair(s: &[u8], x: u8, y: u8, at: usize) -> Option<usize>
    ensures { result ≡ first_from (are x y) s.now at }
{
    for i in at..s.len() {
        if is_pair(s, i, x, y) {
            return Some(i);
        }
    }
    None
}

fn is_blank(b: u8) -> bool
    ensures { result ≡ blank b }
{
    b == b' ' || (b == b'\t' || (b == b'\r' || b == b'\n'))
}

// The `*/` that closes the comment at a place.
fn comment_end(edition: Edition, s: &[u8], at: usize) -> Option<usize>
    requires { at < length s.now }
    ensures { result ≡ comment_end edition s.now at }
{
    find_pair(s, b'*', b'/', at + 1)
}

// Past blanks and comments, or the place of the comment that nothing closes. The edition says where a comment closes.
pub fn skip_comments_and_whitespace(edition: Edition, s: &[u8], at: usize) -> Result<usize, usize>
    ensures { result ≡ skip edition s.now at }
{
    let mut i = at;
    while i < s.len() {
        let b = s[i];
        if is_blank(b) {
            i += 1;
        } else if b == b'#' {
            let Some(q) = find(s, b'\n', i + 1) else {
                return Err(i);
            };
            i = q + 1;
        } else if is_pair(s, i, b'/', b'*') {
            let Some(q) = comment_end(edition, s, i) else {
                return Err(i);
            };
            i = q + 2;
        } else {
            return Ok(i);
        }
    }
    Ok(i)
}
