// The parts of a text: the script before a line `%%`, and a symbol's line at its first `@`, or at the first byte of another kind, as a TAB;
// and where a line ends.
ghost use Rattle.std.specs.Prelude.{◌≡◌, ◌≤◌, ◌+◌, drop, length};
ghost use Rattle.input.specs.Splitting.{at_sign, line_end, mark, marks, part_before};
ghost use Rattle.linker_script.specs.Finding.{first_from, is};

use linker_script::searching::find;

// Whether a text begins with a line `%%`.
fn is_mark(s: &[u8]) -> bool
    ensures { result ≡ marks s.now }
{
    s == b"%%".as_slice() || s.starts_with(b"%%\n")
}

// The place of the first line that is `%%`.
pub fn find_mark(s: &[u8]) -> Option<usize>
    ensures { result ≡ mark s.now }
{
    let mut fresh = true;
    for (i, b) in s.iter().enumerate() {
        if fresh && is_mark(&s[i..]) {
            return Some(i);
        }
        fresh = *b == b'\n';
    }
    None
}

// The place of a line's first `@`.
pub fn find_at(line: &[u8]) -> Option<usize>
    ensures { result ≡ first_from (is at_sign) line.now 0 }
{
    find(line, b'@', 0)
}

// What stands before the first such byte, or all.
pub fn part_before(t: &[u8], mark: u8) -> &[u8]
    ensures { result.now ≡ part_before t.now (first_from (is mark) t.now 0) }
{
    match find(t, mark, 0) {
        None => t,
        Some(p) => &t[..p],
    }
}

// What stands behind the first n bytes and the one behind them; nothing past the end.
pub fn part_behind(t: &[u8], n: usize) -> &[u8]
    ensures { result.now ≡ drop (n + 1) t.now }
{
    &t[n.saturating_add(1).min(t.len())..]
}

// Where the line ends that begins at a place: at its line feed, or where the text ends.
pub fn line_end(s: &[u8], at: usize) -> usize
    ensures end { result ≡ line_end s.now at }
    ensures within { at ≤ length s.now → (at ≤ result) × (result ≤ length s.now) }
{
    find(s, b'\n', at).unwrap_or(s.len())
}
