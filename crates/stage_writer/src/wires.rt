// A wire by the board: but for the test of sizes the only place where the writer looks at which board it writes for.
// Inner functions: `write_on` has tested sizes and tables before it calls them, and the buffer before any of them writes.
ghost use Rattle.std.specs.Prelude.{◌≡◌, ◌+◌, ◌^◌, ◌<◌, ◌≤◌, length};
ghost use Rattle.nodes.specs.declared.BoardKind.TheVariants.{Sharing};
ghost use Rattle.sheet.specs.Limits.{max_patterns};
ghost use Rattle.nodes.specs.Counts.{most_inputs};
ghost use Rattle.diagram.specs.Bytes.{longest_written};
ghost use Rattle.diagram.specs.Forms.{form_of};
ghost use Rattle.base.specs.Inner.Put.{Put};
ghost use Rattle.stage_writer.specs.Inner.Wires.{frame_of, selectors_of};

use crate::diagrams::{entry_count, put_diagram_wire};
use crate::trees::{put_tree_wire, selector_count};
use diagram::DIAGRAM_FRAME;
use nodes::BoardKind;
use stage::TREE_FRAME;

// What a wire takes besides its selectors. No board's frame is longer than a diagram's.
pub fn frame(kind: BoardKind) -> usize
    ensures { (result ≡ frame_of kind) × (result ≤ frame_of Sharing) }
{
    match kind {
        BoardKind::Tree => TREE_FRAME,
        BoardKind::Sharing => DIAGRAM_FRAME,
    }
}

// The selectors of what is written of a table, whether or not they are cells: each has its bytes.
pub fn selectors(kind: BoardKind, n: u8, t: u64) -> u8
    requires { (n ≤ most_inputs kind) × (t < 2 ^ (2 ^ n)) }
    ensures { (result ≡ selectors_of kind n t) × (result < max_patterns) }
{
    match kind {
        BoardKind::Tree => selector_count(n, t),
        BoardKind::Sharing => entry_count(n, t),
    }
}

// Writes wire j's part of a stage, and hands back the place after it.
pub fn put_wire(kind: BoardKind, buffer: &mut [u8], at: usize, n: u8, j: u8, t: u64) -> usize
    requires { (n ≤ most_inputs kind) × (t < 2 ^ (2 ^ n)) × (at + length ((form_of kind).wire_bytes j ((form_of kind).reduced n t)) ≤ longest_written) }
    ensures { Put buffer.old at ((form_of kind).wire_bytes j ((form_of kind).reduced n t)) buffer.new result }
{
    match kind {
        BoardKind::Tree => put_tree_wire(buffer, at, n, j, t),
        BoardKind::Sharing => put_diagram_wire(buffer, at, n, j, t),
    }
}
