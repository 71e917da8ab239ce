// The nodes of a book in lent buffers, by name.
ghost use Rattle.std.specs.Prelude.{◌≡◌, true};
ghost use Rattle.packing.specs.Tables.{packs, things};
ghost use Rattle.book.specs.Books.{first_named, found};
ghost use Rattle.book.specs.Layout.{node_form};
ghost use Rattle.book.specs.View.{any_node};

use crate::rows::node_name;
use packing::same_bytes;

// The first of n nodes that has a name, by its number.
pub fn first_named(nodes: &[u32], names: &[u8], n: usize, p: usize, name: &[u8]) -> Option<usize>
    requires { packs node_form any_node n p nodes.now names.now ≡ true }
    ensures { result ≡ found (first_named (things node_form n nodes.now names.now) 0 name.now) }
{
    for i in 0..n {
        if same_bytes(node_name(nodes, names, i), name) {
            return Some(i);
        }
    }
    None
}
