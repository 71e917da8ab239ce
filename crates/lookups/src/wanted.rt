// The version that is wanted by name, among the rows of the nodes.
ghost use Rattle.std.specs.Prelude.{◌≡◌, true, ◌≤◌};
ghost use Rattle.numbers.specs.Limits.{node_limit};
ghost use Rattle.packing.specs.Tables.{packs, things};
ghost use Rattle.book.specs.Layout.{node_form};
ghost use Rattle.book.specs.View.{any_node};
ghost use Rattle.lookups.specs.Lookups.{known, last_named, wanted_version};

use crate::index::{NodeNumber, VersionIndex};
use book::Counts;
use book::rows::node_name;
use numbers::Refusal;
use packing::same_bytes;

// The version of the last node that has the name, which is not empty.
fn known_version(
    c: Counts,
    nodes: &[u32],
    names: &[u8],
    wanted: &[u8],
) -> Result<VersionIndex, Refusal>
    requires { (packs node_form any_node c.nodes c.names nodes.now names.now ≡ true) × (c.nodes ≤ node_limit) }
    ensures { result ≡ known (last_named (things node_form c.nodes nodes.now names.now) 0 wanted.now) }
{
    for i in (0..c.nodes as usize).rev() {
        if same_bytes(node_name(nodes, names, i), wanted) {
            return Ok(VersionIndex::from_node(NodeNumber::of_row(i as u16)));
        }
    }
    Err(Refusal::UnknownVersion)
}

// The version that is wanted by name.
pub fn wanted_version(
    c: Counts,
    nodes: &[u32],
    names: &[u8],
    wanted: &[u8],
) -> Result<VersionIndex, Refusal>
    requires { (packs node_form any_node c.nodes c.names nodes.now names.now ≡ true) × (c.nodes ≤ node_limit) }
    ensures { result ≡ wanted_version (things node_form c.nodes nodes.now names.now) wanted.now }
{
    if wanted.is_empty() {
        return Ok(VersionIndex::GLOBAL);
    }
    known_version(c, nodes, names, wanted)
}
