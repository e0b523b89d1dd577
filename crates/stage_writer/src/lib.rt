// The stage writer: what drives each wire, made from the wire's table, at the start of a lent buffer. It serves both boards: sizes are tested by the board's own, and `wires` looks at which it is.
#![tactic(auto)]

ghost use Rattle.std.specs.Prelude.{◌≡◌, length};
ghost use Rattle.stage.specs.Trees.{tree_form};
ghost use Rattle.stage.specs.Written.{written_of, buffer_after};
ghost use Rattle.diagram.specs.Diagrams.{diagram_form};
ghost use Rattle.diagram.specs.Forms.{form_of};
ghost use Rattle.base.specs.Cases.{written_case};

use base::Refusal;
use nodes::BoardKind;
use sheet::Sheet;
use stores::put_sheet;
use tables::Stage;

mod stores; // the bytes of a stage
mod tables; // what is handed in
mod wires; // a wire by the board
mod trees; // the selectors of a tree, and its bytes
mod listed; // the nodes of a table
mod diagrams; // the nodes of a diagram, and its bytes
mod common; // what trees and diagrams have in common

// Writes a stage at the start of a buffer and changes nothing behind it; a refusal changes nothing at all.
pub fn write_on(
    kind: BoardKind,
    n: u8,
    m: u8,
    tables: [u64; Sheet::WIRES],
    buffer: &mut [u8],
) -> Result<usize, Refusal>
    ensures { (written_case result ≡ written_of (form_of kind) n m tables (length buffer.old))
        × (buffer.new ≡ buffer_after (form_of kind) n m tables buffer.old) }
{
    let stage = Stage::new(kind, n, m, tables)?;
    let length = stage.length();
    if buffer.len() < length {
        return Err(Refusal::at(Refusal::SHORT_BUFFER, length));
    }
    put_sheet(buffer, &stage);
    Ok(length)
}

// Two calls stay beside `write_on`, which is both of them: README names them.
// A stage of trees.
pub fn write_stage(
    n: u8,
    m: u8,
    tables: [u64; Sheet::WIRES],
    buffer: &mut [u8],
) -> Result<usize, Refusal>
    ensures { (written_case result ≡ written_of tree_form n m tables (length buffer.old)) × (buffer.new ≡ buffer_after tree_form n m tables buffer.old) }
{
    write_on(BoardKind::Tree, n, m, tables, buffer)
}

// A stage of diagrams (document 02, E2). Their board has at most four inputs: more are 3 (E5).
pub fn write_shared(
    n: u8,
    m: u8,
    tables: [u64; Sheet::WIRES],
    buffer: &mut [u8],
) -> Result<usize, Refusal>
    ensures { (written_case result ≡ written_of diagram_form n m tables (length buffer.old)) × (buffer.new ≡ buffer_after diagram_form n m tables buffer.old) }
{
    write_on(BoardKind::Sharing, n, m, tables, buffer)
}
