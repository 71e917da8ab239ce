// "A node number and a version index are kept apart": their fields are this module's own, so that there is no way from one to the other but `from_node`.
ghost use Rattle.std.specs.Prelude.{◌≡◌};
ghost use Rattle.lookups.specs.Lookups.{index_of, node_number};

// A node's number, and a version's index.
#[derive(Clone, Copy, Debug, PartialEq, Eq)]
pub struct NodeNumber(u16);

#[derive(Clone, Copy, Debug, PartialEq, Eq)]
pub struct VersionIndex(u32);

impl NodeNumber {
    // The node of a row, by the row's number. Only this crate makes one.
    pub(crate) fn of_row(row: u16) -> NodeNumber
        ensures { result ≡ node_number row }
    {
        NodeNumber(row)
    }
}

impl VersionIndex {
    // The named value for global, which an empty wanted version gives.
    pub const GLOBAL: VersionIndex = VersionIndex(1);

    // "index is 1 plus number": the only way from one to the other.
    pub fn from_node(node: NodeNumber) -> VersionIndex
        ensures { result ≡ index_of node }
    {
        VersionIndex(1 + (node.0 as u32))
    }

    // The index as a number, for what prints or tells it.
    pub fn number(self) -> u32
        ensures { result ≡ self.0 }
    {
        self.0
    }
}
