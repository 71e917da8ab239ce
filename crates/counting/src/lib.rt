// The counts of a version book, and its nodes. Definitions: specs/Questions.antt, from document 01, 'Ranking'. Every question asks first whether the buffers
// hold a book (14).
#![tactic(auto)]

ghost use Rattle.std.specs.Prelude.{◌≡◌, [], ◌*◌, ◌≤◌, length};
ghost use Rattle.numbers.specs.Limits.{node_limit};
ghost use Rattle.packing.specs.Tables.{things};
ghost use Rattle.book.specs.Lending.{view_of};
ghost use Rattle.book.specs.Layout.{five, node_form, node_width};
ghost use Rattle.book.specs.View.{view};
ghost use Rattle.counting.specs.Questions.{counted, node_of, parent_count, parents_among, unasked, version_count};

use book::lent::Lent;
use book::{EXPORT, NODE_WIDTH};
use book_check::is_book;
use numbers::Refusal;

// A node: where its name starts among the names, how long it is, and its parent's number or 0.
#[derive(Clone, Copy, Debug, PartialEq, Eq)]
pub struct Node {
    pub start: u32,
    pub len: u32,
    pub parent: u32,
}

// Whether a question is refused: what is no book, and an export list.
fn ask(book: Lent) -> Result<(), Refusal>
    ensures { result ≡ unasked
        (view_of book.entry) }
{
    let c = book.counts;
    if !is_book(book) {
        return Err(Refusal::NoBook);
    }
    if c.kind == EXPORT {
        return Err(Refusal::WrongKind);
    }
    Ok(())
}

// How many versions there are: 0 where only node 0 stands, else all nodes.
pub fn version_count(book: Lent) -> Result<u32, Refusal>
    ensures { result ≡ counted version_count
        (view_of book.entry) }
{
    let c = book.counts;
    ask(book)?;
    if c.nodes == 1 {
        return Ok(0);
    }
    Ok(c.nodes)
}

// How many of the first n rows of nodes tell a parent.
fn parents_among(nodes: &[u32], n: usize) -> u32
    requires { (node_width * n ≤ length nodes.now) × (n ≤ node_limit) }
    ensures { result ≡ parents_among (things node_form n nodes.now []) }
{
    let mut r = 0;
    for i in 0..n {
        if nodes[NODE_WIDTH * i + 2] == 0 {
            continue;
        }
        r += 1;
    }
    r
}

// How many nodes have a parent.
pub fn parent_count(book: Lent) -> Result<u32, Refusal>
    ensures { result ≡ counted parent_count
        (view_of book.entry) }
{
    let c = book.counts;
    ask(book)?;
    Ok(parents_among(book.nodes, c.nodes as usize))
}

// A node's name and parent, by its number.
pub fn version_node(book: Lent, node: u32) -> Result<Node, Refusal>
    ensures { result ≡ node_of node
        (view_of book.entry) }
{
    let c = book.counts;
    ask(book)?;
    if c.nodes <= node {
        return Err(Refusal::NoSuch);
    }
    let at = NODE_WIDTH * (node as usize);
    Ok(Node {
        start: book.nodes[at],
        len: book.nodes[at + 1],
        parent: book.nodes[at + 2],
    })
}
