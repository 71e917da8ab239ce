// Whether the nodes of lent buffers are those of a book: their rows, their names, and their parents. Definitions: book/specs/Sanity.antt. `nodes_good` is
// for a caller who knows that the rows are packed.
ghost use Rattle.std.specs.Prelude.{◌≡◌, true, ◌+◌, ◌*◌, ◌<◌, ◌≤◌, length};
ghost use Rattle.numbers.specs.Limits.{over, script_limit};
ghost use Rattle.lists.specs.Each.{every};
ghost use Rattle.packing.specs.Tables.{fine, packs, things};
ghost use Rattle.linker_script.specs.Skip.{skips};
ghost use Rattle.reading_tokens.specs.Tokens.{named};
ghost use Rattle.book.specs.Layout.{node_form, node_width};
ghost use Rattle.book.specs.Sanity.{name_good, no_semicolon, nodes_good, parent_good, parent_script};
ghost use Rattle.book.specs.View.{any_node};

use book::NODE_WIDTH;
use book::nodes::first_named;
use book::rows::node_name;
use linker_script::byte_at;
use numbers::SCRIPT_LIMIT;
use packing::{zero_bytes, zero_numbers};
use reading_tokens::names::is_named;

// Whether n rows of nodes are packed up to the byte p of the names.
fn node_rows(nodes: &[u32], names: &[u8], n: usize, p: u32) -> bool
    requires { node_width * n ≤ length nodes.now }
    ensures { result ≡ fine node_form any_node p n 0 nodes.now names.now }
{
    let mut at = 0;
    let mut o: u32 = 0;
    for i in 0..n {
        if nodes[at] != o {
            return false;
        }
        let size = nodes[at + 1];
        if p - o < size {
            return false;
        }
        o += size;
        at += NODE_WIDTH;
    }
    if o != p {
        return false;
    }
    zero_numbers(nodes, at)
}

pub fn nodes_packed(nodes: &[u32], names: &[u8], n: u32, p: u32) -> bool
    ensures { result ≡ packs node_form any_node n p nodes.now names.now }
{
    if names.len() < (p as usize) {
        return false;
    }
    if nodes.len() / NODE_WIDTH < (n as usize) {
        return false;
    }
    if !zero_bytes(names, p as usize) {
        return false;
    }
    node_rows(nodes, names, n as usize, p)
}

// A first byte, or two, that the skip before a name would take. Of the blanks only CR is a byte of a name.
fn is_skipped_first(name: &[u8]) -> bool
    requires { every named name.now ≡ true }
    ensures { result ≡ skips name.now 0 }
{
    let b = byte_at(name, 0);
    if b == b'\r' {
        return true;
    }
    if b == b'#' {
        return true;
    }
    if b == b'/' {
        return byte_at(name, 1) == b'*';
    }
    false
}

fn all_named(name: &[u8]) -> bool
    ensures { result ≡ every named name.now }
{
    name.iter().all(|b| is_named(*b))
}

fn is_name(name: &[u8]) -> bool
    ensures { result ≡ name_good name.now }
{
    if name.len() == 0 {
        return false;
    }
    // The three bytes behind it in the shortest script that gives it, `{};`.
    if SCRIPT_LIMIT - 3 < name.len() {
        return false;
    }
    if !all_named(name) {
        return false;
    }
    !is_skipped_first(name)
}

fn has_no_semicolon(name: &[u8]) -> bool
    ensures { result ≡ every no_semicolon name.now }
{
    name.iter().all(|b| *b != b';')
}

// Whether no script has room for a node with that name and a parent with that one: the shortest is `u{};t{}u;` of the parent's name u and the node's t.
fn is_over_limit(name: &[u8], parent: &[u8]) -> bool
    ensures { result ≡ over script_limit (parent_script name.now parent.now) }
{
    if SCRIPT_LIMIT < parent.len() {
        return true;
    }
    if SCRIPT_LIMIT < name.len() {
        return true;
    }
    SCRIPT_LIMIT < 2 * parent.len() + name.len() + 6
}

// Whether p can be the parent of node i: none, or an earlier node, the first of its name, whose name can stand before a `;`, and some script has room for both.
fn is_parent(nodes: &[u32], names: &[u8], n: usize, bytes: usize, i: usize, p: u32) -> bool
    requires { (packs node_form any_node n bytes nodes.now names.now ≡ true) × (i < n) }
    ensures { result ≡ parent_good (things node_form n nodes.now names.now) i p }
{
    if p == 0 {
        return true;
    }
    let q = p as usize;
    if i <= q {
        return false;
    }
    let parent = node_name(nodes, names, q);
    if is_over_limit(node_name(nodes, names, i), parent) {
        return false;
    }
    match first_named(nodes, names, n, bytes, parent) {
        None => false,
        Some(first) => {
            if first != q {
                return false;
            }
            has_no_semicolon(parent)
        }
    }
}

// Whether the nodes are those that a reading gives.
pub fn nodes_good(nodes: &[u32], names: &[u8], n: usize, p: usize) -> bool
    requires { packs node_form any_node n p nodes.now names.now ≡ true }
    ensures { result ≡ nodes_good (things node_form n nodes.now names.now) }
{
    if n == 0 {
        return false;
    }
    if nodes[1] != 0 {
        return false;
    }
    if nodes[2] != 0 {
        return false;
    }
    for i in 1..n {
        if !is_name(node_name(nodes, names, i)) {
            return false;
        }
        if !is_parent(nodes, names, n, p, i, nodes[NODE_WIDTH * i + 2]) {
            return false;
        }
    }
    true
}
