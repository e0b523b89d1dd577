// The stage reader: what drives each wire, an ordered tree or a diagram by the board, to its truth table and its cells.
#![tactic(auto)]

ghost use Rattle.std.specs.Prelude.{◌≡◌, ◌≤◌, drop, Ok, Err};
ghost use Rattle.sheet.specs.Limits.{max_inputs, max_wires};
ghost use Rattle.stage.specs.Read.{wires_at, end_at, closed, read_sheet};
ghost use Rattle.stage.specs.Reply.{reply_to_stage};
ghost use Rattle.stage.specs.Trees.{tree_drawing, read_stage};
ghost use Rattle.diagram.specs.Diagrams.{diagram_drawing, read_diagrams};
ghost use Rattle.diagram.specs.Forms.{form_of, drawing_of};
ghost use Rattle.stage_reader.specs.Cases.{stage_reply};
ghost use Rattle.stage_reader.specs.Inner.Wires.{wire_reply, step_of};

use base::Refusal;
use diagrams::read_diagram_wire;
use due::due;
use nodes::{BoardKind, most_inputs};
use sheet::Sheet;
use sheet::limits::sizes_out;
use steps::{Wire, operand};
use trees::read_tree_wire;

mod steps; // one operand, and what reading one wire gives
mod due; // where a command is due
mod tables; // truth tables
mod trees; // one wire's tree
mod numbers; // the numbers of a diagram
mod diagrams; // one wire's diagram

// What a stage sheet says. A wire that it does not have is given table 0.
#[derive(Clone, Copy)]
pub struct StageRead {
    pub n: u8,
    pub m: u8,
    pub tables: [u64; Sheet::WIRES],
    pub cells: u16,
}

// 2F, and nothing after it.
fn read_end(kind: BoardKind, s: &[u8], at: usize) -> Result<(), Refusal>
    ensures { result ≡ end_at (form_of kind).known Err (Ok (tt {0})) at (drop at s.now) }
{
    due(kind, s, at, 0x2F)?;
    if at + 1 < s.len() {
        return Err(Refusal::at(Refusal::TRAILING, at + 1));
    }
    Ok(())
}

// Wire j, which is due. Here the boards part, and where their commands are told (`due`); all else is read alike.
fn read_wire(kind: BoardKind, s: &[u8], at: usize, j: u8, n: u8, m: u8) -> Result<Wire, Refusal>
    requires { n ≤ max_inputs }
    ensures { wire_reply result ≡ step_of (drawing_of kind) n ((form_of kind).wire_at n m j at (drop at s.now)) }
{
    match kind {
        BoardKind::Tree => read_tree_wire(s, at, j, n, m),
        BoardKind::Sharing => read_diagram_wire(s, at, j, n, m),
    }
}

// The wires of a stage sheet from place 3 on, and its end.
fn read_wires(kind: BoardKind, s: &[u8], n: u8, m: u8) -> Result<StageRead, Refusal>
    requires { (n ≤ max_inputs) × (m ≤ max_wires) }
    ensures { stage_reply result ≡ reply_to_stage (drawing_of kind) (closed (form_of kind) n m (wires_at (form_of kind) m n m 0 3 (drop 3 s.now))) }
{
    let mut tables = [0u64; Sheet::WIRES];
    let mut cells: u16 = 0;
    let mut at: usize = 3;
    for j in 0..m {
        let wire = read_wire(kind, s, at, j, n, m)?;
        tables[j as usize] = wire.table;
        cells += wire.cells;
        at = wire.next;
    }
    read_end(kind, s, at)?;
    Ok(StageRead {
        n,
        m,
        tables,
        cells,
    })
}

// A whole stage sheet of either board: its tables and its cells, or the refusal.
pub fn read_on(kind: BoardKind, s: &[u8]) -> Result<StageRead, Refusal>
    ensures { stage_reply result ≡ reply_to_stage (drawing_of kind) (read_sheet (form_of kind) s.now) }
{
    due(kind, s, 0, 0x20)?;
    let n = operand(s, 1, 0)?;
    let m = operand(s, 2, 0)?;
    if sizes_out(most_inputs(kind), n, m) {
        return Err(Refusal::at(Refusal::OUT_OF_RANGE, 0));
    }
    read_wires(kind, s, n, m)
}

// Two calls stay beside `read_on`, which is both of them: README names them.
// A stage sheet of document 01's board, whose wires are trees.
pub fn read_stage(s: &[u8]) -> Result<StageRead, Refusal>
    ensures { stage_reply result ≡ reply_to_stage tree_drawing (read_stage s.now) }
{
    read_on(BoardKind::Tree, s)
}

// A stage sheet of the board that shares selectors (document 02, E2), whose wires are diagrams. The board has at most four inputs: more are 3 (E5).
pub fn read_shared(s: &[u8]) -> Result<StageRead, Refusal>
    ensures { stage_reply result ≡ reply_to_stage diagram_drawing (read_diagrams s.now) }
{
    read_on(BoardKind::Sharing, s)
}
