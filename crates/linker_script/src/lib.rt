// What the readers above ask of the bytes of a text: the byte at a place, the last `};`, the end of a token without its blanks. The searches for a byte
// stand in `searching`, the skip function of linker_script.rs in `comments`; specs/ has the definitions of all of them. A text is a slice, a place a
// number; every place is answered, also past the end.
#![tactic(auto)]

ghost use Rattle.std.specs.Prelude.{◌≡◌, ◌≤◌, length, get_or, take};
ghost use Rattle.linker_script.specs.Finding.{last_close};
ghost use Rattle.linker_script.specs.Trim.{white, trim_end};

pub mod comments;
pub mod searching;

// The byte at a place, 0 past the end.
pub fn byte_at(s: &[u8], at: usize) -> u8
    ensures { result ≡ get_or s.now at 0 }
{
    s.get(at).copied().unwrap_or(0)
}

// One more than the last place of `};`, or 0: from there on none is left. The search begins at the end.
pub fn last_close(s: &[u8]) -> usize
    ensures { result ≡ last_close s.now }
{
    for i in (1..s.len()).rev() {
        if s[i] == b';' && s[i - 1] == b'}' {
            return i;
        }
    }
    0
}

fn is_white(b: u8) -> bool
    ensures { result ≡ white b }
{
    b == b' ' || (b == b'\t' || (b == b'\n' || (b == b'\x0C' || b == b'\r')))
}

// How many bytes are left without the blanks at the end.
pub fn trimmed_length(s: &[u8]) -> usize
    ensures { (result ≤ length s.now) × (take result s.now ≡ trim_end s.now) }
{
    for k in (0..s.len()).rev() {
        if !is_white(s[k]) {
            return k + 1;
        }
    }
    0
}

// The text without the blanks at its end, as a part of it: it begins where the text begins.
pub fn trim_ascii_end(s: &[u8]) -> &[u8]
    ensures { (result.now ≡ trim_end s.now) × (result.ref_ptr ≡ s.entry.ref_ptr) }
{
    let e = trimmed_length(s);
    &s[..e]
}
