// A lent book, to be asked: its counts, and the five buffers that hold it. Whether they hold one is asked in the crate `book_check`.
use crate::Counts;

#[derive(Clone, Copy)]
pub struct Lent<'a> {
    pub counts: Counts,
    pub nodes: &'a [u32],
    pub names: &'a [u8],
    pub lines: &'a [u32],
    pub pool: &'a [u8],
    pub journal: &'a [u32],
}
