// The diagrams of a stage sheet, each read to its truth table and its cells.
// Inner functions: `read_on` has tested the sizes before it calls them.
ghost use Rattle.std.specs.Prelude.{◌≡◌, ◌≤◌, drop};
ghost use Rattle.sheet.specs.Limits.{max_inputs};
ghost use Rattle.stage.specs.Steps.{and_then};
ghost use Rattle.diagram.specs.Diagram.{most_entries};
ghost use Rattle.diagram.specs.Read.{entries_at, top_at, diagram_wire_at};
ghost use Rattle.diagram.specs.Diagrams.{diagram_drawing};
ghost use Rattle.stage_reader.specs.Inner.Wires.{wire_reply, step_of};

use crate::due::{due, turn};
use crate::numbers::{Entry, Numbers};
use crate::steps::{Wire, operand};
use base::Refusal;
use diagram::MOST_ENTRIES;
use nodes::BoardKind;
use stage::SELECTOR_BYTES;

// The most entries, as the byte says that counts them.
const MOST: u8 = MOST_ENTRIES as u8;

// So many entries from a place on, and the top.
fn read_diagram(s: &[u8], from: usize, n: u8, count: u8) -> Result<Wire, Refusal>
    requires { (n ≤ max_inputs) × (count ≤ most_entries) }
    ensures { wire_reply result ≡ step_of diagram_drawing n (and_then (entries_at count n from (drop from s.now)) top_at) }
{
    let mut numbers = Numbers::constants(n);
    let mut at = from;
    for _ in 0..count {
        let entry = Entry::read(s, at)?;
        numbers.judge(entry, at)?;
        numbers.push(entry);
        at += SELECTOR_BYTES;
    }
    numbers.read_top(s, at)
}

// 26 j c, c entries and the top of wire j.
pub fn read_diagram_wire(s: &[u8], at: usize, j: u8, n: u8, m: u8) -> Result<Wire, Refusal>
    requires { n ≤ max_inputs }
    ensures { wire_reply result ≡ step_of diagram_drawing n (diagram_wire_at n m j at (drop at s.now)) }
{
    due(BoardKind::Sharing, s, at, 0x26)?;
    let i = operand(s, at + 1, at)?;
    let count = operand(s, at + 2, at)?;
    turn(m, j, i, MOST < count, at)?;
    read_diagram(s, at + 3, n, count)
}
