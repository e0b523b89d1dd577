// Nodes of a table: those of the reduced ordered binary decision diagram of its function. They are its cells on a board that shares selectors, but for plain
// inputs, which count for none.
#![tactic(auto)]

ghost use Rattle.std.specs.Prelude.{◌≡◌};
ghost use Rattle.nodes.specs.Counts.{most_inputs};

use sheet::Sheet;

pub mod picks; // the table whose nodes count for least between two masks

// What drives a wire: a tree of selectors (document 01), or selectors of which one can drive more than one other (document 02, E2).
#[derive(Clone, Copy)]
pub enum BoardKind {
    Tree,
    Sharing,
}

// The most inputs of a board (document 02, E5).
pub fn most_inputs(kind: BoardKind) -> u8
    ensures { result ≡ most_inputs kind }
{
    match kind {
        BoardKind::Tree => Sheet::MAX_INPUTS,
        BoardKind::Sharing => Sheet::MAX_SHARED_INPUTS,
    }
}
