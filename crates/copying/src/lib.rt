// Writing into lent buffers: bytes, rows of numbers, and bytes moved down within their buffer.
#![tactic(auto)]

ghost use Rattle.std.specs.Prelude.{◌≡◌, [], ◌∷◌, ◌+◌, ◌≤◌, length, drop, take};
ghost use Rattle.std.proofs.Math.Seq.{paste};

// Items copied in from a place on.
fn put<T: Copy>(into: &mut [T], at: usize, items: &[T])
    requires { at + length items.now ≤ length into.old }
    ensures { into.new ≡ paste into.old at items.now (length items.now) }
{
    into[at..at + items.len()].copy_from_slice(items);
}

// Bytes copied in from a place on.
pub fn put_bytes(into: &mut [u8], at: usize, bytes: &[u8])
    requires { at + length bytes.now ≤ length into.old }
    ensures { into.new ≡ paste into.old at bytes.now (length bytes.now) }
{
    put(into, at, bytes);
}

// Bytes moved down within their buffer.
pub fn move_down(bytes: &mut [u8], from: usize, to: usize, n: usize)
    requires { (to ≤ from) × (from + n ≤ length bytes.old) }
    ensures { bytes.new ≡ paste bytes.old to (take n (drop from bytes.old)) n }
{
    bytes.copy_within(from..from + n, to);
}

// Rows of two and three numbers, from a place on.
pub fn put_two(rows: &mut [u32], at: usize, a: u32, b: u32)
    requires { at + 2 ≤ length rows.old }
    ensures { rows.new ≡ paste rows.old at (a ∷ b ∷ []) 2 }
{
    put(rows, at, &[a, b]);
}

pub fn put_three(rows: &mut [u32], at: usize, a: u32, b: u32, c: u32)
    requires { at + 3 ≤ length rows.old }
    ensures { rows.new ≡ paste rows.old at (a ∷ b ∷ c ∷ []) 3 }
{
    put(rows, at, &[a, b, c]);
}
