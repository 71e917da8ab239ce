// Room for a row or for bytes more in lent buffers. Definitions: specs/Rooms.antt, from document 01, 'Numbers that say no' (8).
#![tactic(auto)]

ghost use Rattle.std.specs.Prelude.{◌≡◌, ◌≤◌};
ghost use Rattle.storing.specs.Keeping.{keep};
ghost use Rattle.book_rooms.specs.Rooms.{Put, edit_row, fits_row, pool_room};

use book::{EDIT_WIDTH, LINE_WIDTH};
use numbers::{EDIT_LIMIT, Edition, LINE_LIMIT, POOL_LIMIT, Refusal};
use storing::{Stored, store_token};

// Whether there is a row for line n.
pub fn has_row(lines: &[u32], n: usize) -> bool
    ensures { result ≡ fits_row lines.now n }
{
    n < LINE_LIMIT && n < lines.len() / LINE_WIDTH
}

// Whether there is a row for edit n.
pub fn has_edit(journal: &[u32], n: usize) -> bool
    ensures { result ≡ edit_row journal.now n }
{
    n < EDIT_LIMIT && n < journal.len() / EDIT_WIDTH
}

// How far the pool can be filled.
pub fn pool_end(pool: &[u8]) -> usize
    ensures { result ≡ pool_room pool.now }
{
    pool.len().min(POOL_LIMIT)
}

// What is kept of a token, in the pool from a place on.
pub fn put_token(
    edition: Edition,
    token: &[u8],
    at: usize,
    pool: &mut [u8],
) -> Result<Stored, Refusal>
    requires { at ≤ pool_room pool.old }
    ensures { Put (keep edition token.now) pool.old at result pool.new }
{
    let end = pool_end(pool);
    store_token(edition, token, &mut pool[at..end])
}
