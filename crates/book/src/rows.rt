// The rows of lines and nodes in their lent buffers: a line's row put there, and the bytes that a row tells of.
ghost use Rattle.std.specs.Prelude.{◌≡◌, ◌+◌, ◌*◌, ◌≤◌, length};
ghost use Rattle.std.proofs.Math.Seq.{paste};
ghost use Rattle.book.specs.Layout.{LineLies, NodeLies, bytes_of_line, line_width, name_of_node, row_of_line};

use crate::{LINE_WIDTH, NODE_WIDTH};

// The row of line i.
pub fn put_line(
    lines: &mut [u32],
    i: usize,
    node: u32,
    code: u32,
    start: u32,
    size: u32,
    offset: u32,
)
    requires { line_width * i + line_width ≤ length lines.old }
    ensures { lines.new ≡ paste lines.old (line_width * i) (row_of_line node code start size offset) line_width }
{
    let at = LINE_WIDTH * i;
    lines[at] = node;
    lines[at + 1] = code;
    lines[at + 2] = start;
    lines[at + 3] = size;
    lines[at + 4] = offset;
}

// The bytes of line i.
pub fn line_bytes<'a>(lines: &[u32], pool: &'a [u8], i: usize) -> &'a [u8]
    requires { LineLies lines.now pool.now i }
    ensures { result.now ≡ bytes_of_line lines.now pool.now i }
{
    let at = LINE_WIDTH * i;
    let start = lines[at + 2] as usize;
    let end = start + (lines[at + 3] as usize);
    &pool[start..end]
}

// The name of node i.
pub fn node_name<'a>(nodes: &[u32], names: &'a [u8], i: usize) -> &'a [u8]
    requires { NodeLies nodes.now names.now i }
    ensures { result.now ≡ name_of_node nodes.now names.now i }
{
    let at = NODE_WIDTH * i;
    let from = nodes[at] as usize;
    let to = from + (nodes[at + 1] as usize);
    &names[from..to]
}
