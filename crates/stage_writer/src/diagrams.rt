// The bytes of a wire that is a diagram: an entry for each node of the wire's table, in the order in which the nodes are listed.
// Inner functions: `write_on` has tested sizes and tables before it calls them, and the buffer before any of them writes.
ghost use Rattle.std.specs.Prelude.{◌≡◌, [], ℕ, ◌+◌, ◌*◌, ◌^◌, ◌<◌, ◌≤◌, length, get_or};
ghost use Rattle.sheet.specs.Limits.{max_shared_inputs};
ghost use Rattle.nodes.specs.Nodes.{listing};
ghost use Rattle.stage.specs.Bytes.{selector_bytes};
ghost use Rattle.diagram.specs.Bytes.{entry_bytes, entries_bytes, diagram_wire_bytes, most_nodes, longest_written};
ghost use Rattle.diagram.specs.Written.{entry_of, entries_of, reduced_diagram};
ghost use Rattle.base.specs.Inner.Put.{Put};
ghost use Rattle.stage_writer.specs.Inner.Listed.{as_node, nodes_of, no_node, NodeOf};

use crate::common::{halves, put_bytes};
use crate::listed::{Listing, Node, number_of};

// How many entries are written of a table: its nodes, whether or not they count.
pub fn entry_count(n: u8, t: u64) -> u8
    requires { n ≤ max_shared_inputs }
    ensures { (result ≡ length (listing n t [])) × (result ≤ most_nodes) }
{
    let listing = Listing::of_table(n, t);
    listing.nodes().len() as u8
}

// Writes the entry of a node of a table of n inputs: its input, and the numbers of its halves among the nodes before it.
fn put_entry(buffer: &mut [u8], at: usize, before: &[Node], node: Node, n: u8) -> usize
    requires { (length before.now ≤ most_nodes) × (n ≤ max_shared_inputs) × NodeOf n node × (at + selector_bytes ≤ longest_written) }
    ensures { Put buffer.old at (entry_bytes (entry_of n (nodes_of before.now) (as_node node))) buffer.new result }
{
    let (low, high) = halves(node.after, node.table);
    let for_zero = number_of(before, node.after, low);
    let for_one = number_of(before, node.after, high);
    put_bytes(buffer, at, &[n - node.after, for_zero, for_one])
}

// Writes the entries of listed nodes, and hands back the place after them.
fn put_entries(buffer: &mut [u8], at: usize, listed: &[Node], n: u8) -> usize
    requires { (length listed.now ≤ most_nodes) × (n ≤ max_shared_inputs) × ((k : ℕ) → k < length listed.now → NodeOf n (get_or listed.now k no_node))
        × (at + selector_bytes * length listed.now ≤ longest_written) }
    ensures { Put buffer.old at (entries_bytes (entries_of n (nodes_of listed.now))) buffer.new result }
{
    let mut next = at;
    for (k, node) in listed.iter().enumerate() {
        next = put_entry(buffer, next, &listed[..k], *node, n);
    }
    next
}

// Writes wire j, and hands back the place after it.
pub fn put_diagram_wire(buffer: &mut [u8], at: usize, n: u8, j: u8, t: u64) -> usize
    requires { (n ≤ max_shared_inputs) × (t < 2 ^ (2 ^ n)) × (at + length (diagram_wire_bytes j (reduced_diagram n t)) ≤ longest_written) }
    ensures { Put buffer.old at (diagram_wire_bytes j (reduced_diagram n t)) buffer.new result }
{
    let listing = Listing::of_table(n, t);
    let nodes = listing.nodes();
    let entries_at = put_bytes(buffer, at, &[0x26, j, nodes.len() as u8]);
    let top_at = put_entries(buffer, entries_at, nodes, n);
    let top = number_of(nodes, n, t);
    put_bytes(buffer, top_at, &[top])
}
