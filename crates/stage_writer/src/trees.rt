// A wire that is a tree: how many selectors it has, and its bytes.
// Inner functions: `write_on` has tested sizes and tables before it calls them, and the buffer before any of them writes.
ghost use Rattle.std.specs.Prelude.{◌≡◌, ℕ, ◌+◌, ◌≤◌, length};
ghost use Rattle.sheet.specs.Limits.{max_inputs};
ghost use Rattle.table.specs.Tree.{selectors, reduced};
ghost use Rattle.stage.specs.TreeBytes.{constant_byte, tree_bytes, tree_wire_bytes};
ghost use Rattle.diagram.specs.Bytes.{longest_written};
ghost use Rattle.base.specs.Inner.Put.{Put};

use crate::common::{halves, put_bytes};

// How many selectors the reduced tree of a table of w inputs has, whatever number k of inputs stand before these.
pub fn selector_count(w: u8, t: u64) -> u8
    requires { w ≤ max_inputs }
    ensures { (k : ℕ) → result ≡ selectors (reduced w k t) }
{
    if w == 0 {
        return 0;
    }
    let v = w - 1;
    let (low, high) = halves(v, t);
    if low != high {
        return 1 + selector_count(v, low) + selector_count(v, high);
    }
    selector_count(v, low)
}

// The byte of a constant.
fn constant(t: u64) -> u8
    ensures { result ≡ constant_byte t }
{
    if t == 0 { 0x23 } else { 0x24 }
}

// Writes the reduced tree of a table of w inputs, which stand after k others, and hands back the place after it.
fn put_tree(buffer: &mut [u8], at: usize, w: u8, k: u8, t: u64) -> usize
    requires { (w + k ≤ max_inputs) × (at + length (tree_bytes (reduced w k t)) ≤ longest_written) }
    ensures { Put buffer.old at (tree_bytes (reduced w k t)) buffer.new result }
{
    if w == 0 {
        return put_bytes(buffer, at, &[constant(t)]);
    }
    let v = w - 1;
    let (low, high) = halves(v, t);
    let input = k + 1;
    if low == high {
        put_tree(buffer, at, v, input, low)
    } else {
        let for_zero = put_bytes(buffer, at, &[0x22, input]);
        let for_one = put_tree(buffer, for_zero, v, input, low);
        put_tree(buffer, for_one, v, input, high)
    }
}

// Writes wire j, and hands back the place after it.
pub fn put_tree_wire(buffer: &mut [u8], at: usize, n: u8, j: u8, t: u64) -> usize
    requires { (n ≤ max_inputs) × (at + length (tree_wire_bytes j (reduced n 0 t)) ≤ longest_written) }
    ensures { Put buffer.old at (tree_wire_bytes j (reduced n 0 t)) buffer.new result }
{
    let tree_at = put_bytes(buffer, at, &[0x21, j]);
    put_tree(buffer, tree_at, n, 0, t)
}
