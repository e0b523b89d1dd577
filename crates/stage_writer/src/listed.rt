// The nodes of a wire's table, in the order in which they are listed, and their numbers.
// Inner functions: `write_on` has tested sizes and tables before it calls them.
ghost use Rattle.std.specs.Prelude.{◌≡◌, [], ◌∷◌, ◌+◌, ◌^◌, ◌<◌, ◌≤◌, length, MatchOption};
ghost use Rattle.sheet.specs.Limits.{max_shared_inputs};
ghost use Rattle.nodes.specs.Nodes.{listing};
ghost use Rattle.diagram.specs.Bytes.{most_nodes};
ghost use Rattle.diagram.specs.Written.{node_number, number_of};
ghost use Rattle.stage_writer.specs.Inner.Listed.{as_node, nodes_of};

use crate::common::halves;
use diagram::{FIRST_NUMBER, MOST_NODES};
use std::marker::Model;

// A node: how many inputs stand after the one that it tests, and its table.
#[derive(Clone, Copy, PartialEq, Eq)]
pub struct Node {
    pub after: u8,
    pub table: u64,
}

// The number of a node among those that are listed. They are numbered in their order, and the latest that is the same has it.
fn node_number(listed: &[Node], node: Node) -> Option<u8>
    requires { length listed.now ≤ most_nodes }
    ensures { MatchOption result (node_number (nodes_of listed.now) (as_node node) ≡ 0) (λ k. (0 < k) × (k ≡ node_number (nodes_of listed.now) (as_node node))) }
{
    let place = listed.iter().rposition(|k| *k == node)?;
    Some(FIRST_NUMBER + place as u8)
}

// The number of a table of w inputs. Inputs that it does not depend on are passed over; what is left is a listed node or a constant. For a node that is not
// listed the meaning has 0, and nobody asks for one.
pub fn number_of(listed: &[Node], w: u8, t: u64) -> u8
    requires { (length listed.now ≤ most_nodes) × (w ≤ max_shared_inputs) × (t < 2 ^ (2 ^ w)) }
    ensures { result ≡ number_of (nodes_of listed.now) w t }
{
    let mut part = t;
    for after in (0..w).rev() {
        let (low, high) = halves(after, part);
        if low != high {
            let node = Node { after, table: part };
            return node_number(listed, node).unwrap_or(0);
        }
        part = low;
    }
    part as u8
}

// The nodes of a wire that are listed.
#[derive(Drop)]
pub struct Listing {
    nodes: [Node; MOST_NODES],
    count: u8,
}

// Clauses see the nodes, the latest first.
impl Model for Listing {
    ghost use Rattle.std.specs.Prelude.{List, ◌≤◌};
    ghost use Rattle.nodes.specs.Nodes.{Node};

    ghost Value = { List Node };

    ghost use Rattle.diagram.specs.Bytes.{most_nodes};
    ghost use Rattle.stage_writer.specs.Inner.Listed.{listed_in};

    ghost view = { listed_in };

    ghost invariant = { λ x. x.count ≤ most_nodes };
}

impl Listing {
    fn empty() -> Listing
        ensures { result ≡ [] }
    {
        let blank = Node { after: 0, table: 0 };
        Listing {
            nodes: [blank; MOST_NODES],
            count: 0,
        }
    }

    // All nodes of a table of n inputs.
    pub fn of_table(n: u8, t: u64) -> Listing
        requires { n ≤ max_shared_inputs }
        ensures { result ≡ listing n t [] }
    {
        let mut all = Listing::empty();
        all.list(n, t);
        all
    }

    // The nodes in their order.
    pub fn nodes(&self) -> &[Node]
        ensures { (nodes_of result.now ≡ self.now) × (length result.now ≤ most_nodes) }
    {
        &self.nodes[..usize::from(self.count)]
    }

    // Lists one node more.
    fn push(&mut self, node: Node)
        requires { length self.old < most_nodes }
        ensures { self.new ≡ as_node node ∷ self.old }
    {
        self.nodes[usize::from(self.count)] = node;
        self.count += 1;
    }

    // Lists the nodes of a table of w inputs that are not listed yet: fewer than the table has patterns. The half for 0 comes first, and the table itself after
    // both halves. Where it is listed its halves are too, so nothing is left to do.
    fn list(&mut self, w: u8, t: u64)
        requires { (w ≤ max_shared_inputs) × (length self.old + 2 ^ w ≤ 2 ^ max_shared_inputs) }
        ensures { (self.new ≡ listing w t self.old) × (length self.new < length self.old + 2 ^ w) }
    {
        if w == 0 {
            return;
        }
        let v = w - 1;
        let (low, high) = halves(v, t);
        let node = Node { after: v, table: t };
        if low == high {
            self.list(v, low)
        } else if node_number(self.nodes(), node).is_none() {
            self.list(v, low);
            self.list(v, high);
            self.push(node);
        }
    }
}
