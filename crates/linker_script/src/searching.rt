// The first place of a byte in a text. Definitions: linker_script/specs/Finding.antt, and of a block of bytes specs/Blocks.antt. Every place is answered,
// also past the end.
ghost use Rattle.std.specs.Prelude.{◌≡◌, cond, ◌+◌, ◌<◌, ◌≤◌, eqb, leb, length};
ghost use Rattle.linker_script.specs.Finding.{first_from, is};
ghost use Rattle.linker_script.specs.Blocks.{bits};

// Whether 16 bytes stand from a place on.
fn has_block(s: &[u8], at: usize) -> bool
    ensures { result ≡ leb (at + 16) (length s.now) }
{
    at < s.len() && 16 <= s.len() - at
}

// 1 for x, else 0.
fn mark(c: u8, x: u8) -> u32
    ensures { (result ≤ 1) × (result ≡ cond (eqb c x) 1 0) }
{
    (c == x) as u32
}

// A bit for each of the 8 bytes from a place on, 1 for x, the first byte lowest.
fn eight_bits(s: &[u8], x: u8, at: usize) -> u32
    requires { at + 8 ≤ length s.now }
    ensures { (result < 256) × (result ≡ bits x s.now 0 8 at) }
{
    let mut low = 0;
    for i in (0..8).rev() {
        low = 2 * low + mark(s[at + i], x);
    }
    low
}

// How far the first x of the 16 bytes from a place on is, or 16: their lowest bit. Nothing branches on a byte, so that the compiler can test all at a time.
fn block_place(s: &[u8], x: u8, at: usize) -> usize
    requires { at + 16 ≤ length s.now }
    ensures { (result < 16 → first_from (is x) s.now at ≡ Some (at + result))
        × (16 ≤ result → first_from (is x) s.now at ≡ first_from (is x) s.now (at + 16)) }
{
    let low = eight_bits(s, x, at);
    let high = eight_bits(s, x, at + 8);
    u32::trailing_zeros(low + 256 * high + 65536) as usize
}

// The first place of the byte x, from a place on: by blocks of 16 bytes, and by bytes in what is left.
pub fn find(s: &[u8], x: u8, at: usize) -> Option<usize>
    ensures { result ≡ first_from (is x) s.now at }
{
    let mut i = at;
    while has_block(s, i) {
        let k = block_place(s, x, i);
        if k < 16 {
            return Some(i + k);
        }
        i += 16;
    }
    for j in i..s.len() {
        if s[j] == x {
            return Some(j);
        }
    }
    None
}
