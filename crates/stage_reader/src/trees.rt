// The trees of a stage sheet, each read to its truth table and its cells.
// Inner functions: `read_on` has tested the sizes before it calls them.
ghost use Rattle.std.specs.Prelude.{◌≡◌, ◌&&◌, ◌+◌, ◌<◌, ◌≤◌, eqb, length, get_or, drop};
ghost use Rattle.sheet.specs.Limits.{max_inputs};
ghost use Rattle.table.specs.Cells.{selector_cells};
ghost use Rattle.stage.specs.TreeBytes.{constant_byte};
ghost use Rattle.stage.specs.TreeRead.{branches_at, tree_at, selector_at, tree_wire_at};
ghost use Rattle.stage.specs.Trees.{tree_drawing};
ghost use Rattle.stage_reader.specs.Inner.Wires.{wire_reply, step_of};

use crate::due::{due, misplaced, turn};
use crate::steps::{Wire, operand};
use crate::tables::select;
use base::{Refusal, byte_at};
use nodes::BoardKind;
use sheet::limits::count_out;
use table::tables::full_table;

// A tree below a selector on input k, or below none where k is 0.
#[cycle(read_branches_read_selector_read_tree)]
fn read_tree(s: &[u8], at: usize, n: u8, k: u8) -> Result<Wire, Refusal>
    requires { (k ≤ n) × (n ≤ max_inputs) }
    ensures { wire_reply result ≡ step_of tree_drawing n (tree_at n k at (drop at s.now)) }
{
    let b = operand(s, at, at)?;
    match b {
        0x22 => read_selector(s, at, n, k),
        0x23 => Ok(Wire {
            table: 0,
            cells: 0,
            next: at + 1,
        }),
        0x24 => Ok(Wire {
            table: full_table(n),
            cells: 0,
            next: at + 1,
        }),
        _ => Err(misplaced(BoardKind::Tree, b, at)),
    }
}

// The same at a byte 22: its input is judged, then its two trees are read.
#[cycle(read_branches_read_selector_read_tree)]
fn read_selector(s: &[u8], at: usize, n: u8, k: u8) -> Result<Wire, Refusal>
    requires { (k ≤ n) × (n ≤ max_inputs) × (at < length s.now) }
    ensures { wire_reply result ≡ step_of tree_drawing n (selector_at (tree_at n) n k at (drop (at + 1) s.now)) }
{
    let i = operand(s, at + 1, at)?;
    if count_out(i, n) {
        return Err(Refusal::at(Refusal::OUT_OF_RANGE, at));
    }
    if i <= k {
        return Err(Refusal::at(Refusal::NOT_ASCENDING, at));
    }
    read_branches(s, at + 2, n, i)
}

// The cells of a selector whose tree for 0 is at a place and whose tree for 1 is at the next (document 02, E4): none where they are the constants 0 and 1. A
// tree's first byte tells whether it is a constant, and which.
fn selector_cost(s: &[u8], at: usize, next: usize) -> u16
    ensures { result ≡ selector_cells (eqb (get_or s.now at 0) (constant_byte 0) && eqb (get_or s.now next 0) (constant_byte 1)) }
{
    let zero = byte_at(s, at) == 0x23;
    let one = byte_at(s, next) == 0x24;
    u16::from(!(zero && one))
}

// The two trees of a selector on input i, the one for 0 at a place and the one for 1 after it.
#[cycle(read_branches_read_selector_read_tree)]
fn read_branches(s: &[u8], at: usize, n: u8, i: u8) -> Result<Wire, Refusal>
    requires { (1 ≤ i) × (i ≤ n) × (n ≤ max_inputs) }
    ensures { wire_reply result ≡ step_of tree_drawing n (branches_at (tree_at n i) i at (drop at s.now)) }
{
    let off = read_tree(s, at, n, i)?;
    let on = read_tree(s, off.next, n, i)?;
    Ok(Wire {
        table: select(n, i, off.table, on.table),
        cells: selector_cost(s, at, off.next) + off.cells + on.cells,
        next: on.next,
    })
}

// 21 j and the tree of wire j: a command with no other operand that could be out of range.
pub fn read_tree_wire(s: &[u8], at: usize, j: u8, n: u8, m: u8) -> Result<Wire, Refusal>
    requires { n ≤ max_inputs }
    ensures { wire_reply result ≡ step_of tree_drawing n (tree_wire_at n m j at (drop at s.now)) }
{
    due(BoardKind::Tree, s, at, 0x21)?;
    let i = operand(s, at + 1, at)?;
    turn(m, j, i, false, at)?;
    read_tree(s, at + 2, n, 0)
}
