// Lent buffers: clearing them, asking whether their rest is zero, and whether bytes are the same. What a buffer holds, and how rows and bytes are packed,
// is defined once for every buffer: specs/Padding.antt and specs/Tables.antt.
#![tactic(auto)]

ghost use Rattle.std.specs.Prelude.{◌≡◌, drop};
ghost use Rattle.lists.specs.Same.{same};
ghost use Rattle.packing.specs.Padding.{all_zero, zeroed};

pub fn clear_bytes(bytes: &mut [u8])
    ensures { bytes.new ≡ zeroed bytes.old }
{
    bytes.fill(0);
}

pub fn clear_numbers(rows: &mut [u32])
    ensures { rows.new ≡ zeroed rows.old }
{
    rows.fill(0);
}

// Whether bytes are zero from a place on.
pub fn zero_bytes(bytes: &[u8], from: usize) -> bool
    ensures { result ≡ all_zero (drop from bytes.now) }
{
    bytes.iter().skip(from).all(|b| *b == 0)
}

// The same of numbers.
pub fn zero_numbers(rows: &[u32], from: usize) -> bool
    ensures { result ≡ all_zero (drop from rows.now) }
{
    rows.iter().skip(from).all(|n| *n == 0)
}

// Whether bytes are the same. They are compared from both ends at once, the last one first: names of one length mostly differ near one of them, and `==` reads
// all that is alike before.
pub fn same_bytes(a: &[u8], b: &[u8]) -> bool
    ensures { result ≡ same a.now b.now }
{
    let n = a.len();
    if b.len() != n {
        return false;
    }
    for i in 0..n - n / 2 {
        let j = n - 1 - i;
        if a[j] != b[j] {
            return false;
        }
        if a[i] != b[i] {
            return false;
        }
    }
    true
}
