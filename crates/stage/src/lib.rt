// Stage sheets: what drives each wire as bytes, over the form of a wire, and decision trees as one form. The meanings and laws are here; `stage_reader` and
// `stage_writer` have the code.
#![tactic(auto)]

use sheet::Sheet;

// What a sheet takes besides its wires: 20 and the sizes before them, and 2F after them.
pub const SHEET_FRAME: usize = 4;

// What a selector takes on either board.
pub const SELECTOR_BYTES: usize = 3;

// What a tree takes besides its selectors: 21 and the wire's number, and a byte, since it has one constant more than selectors.
pub const TREE_FRAME: usize = 3;

// An ordered tree has fewer selectors than there are patterns, so that no stage of trees has more than this, whoever wrote it.
const MOST_SELECTORS: usize = Sheet::WIRES * (Sheet::MAX_PATTERNS - 1);

// No stage of trees has more bytes.
pub const LONGEST_STAGE: usize = SHEET_FRAME
    + TREE_FRAME * Sheet::WIRES
    + SELECTOR_BYTES * MOST_SELECTORS;
