// Stage sheets of the board that shares selectors: a decision diagram for each wire as bytes. The meanings and laws are here; `stage_reader` and
// `stage_writer` have the code.
#![tactic(auto)]

use sheet::Sheet;
use stage::{LONGEST_STAGE, SELECTOR_BYTES, SHEET_FRAME};

// Numbers 0 and 1 are the constants, and the entries have those after them.
pub const FIRST_NUMBER: u8 = 2;

// A wire has no more entries: their numbers are bytes.
pub const MOST_ENTRIES: usize = 253;

// What a diagram takes besides its entries: 26, the wire's number, how many entries it has, and the top.
pub const DIAGRAM_FRAME: usize = 4;

// A table has fewer nodes than patterns, and this board has tables of four inputs at most.
pub const MOST_NODES: usize = (1 << Sheet::MAX_SHARED_INPUTS) - 1;

// No sharing stage that is written has more bytes.
pub const LONGEST_SHARED: usize = SHEET_FRAME
    + DIAGRAM_FRAME * Sheet::WIRES
    + SELECTOR_BYTES * Sheet::WIRES * MOST_NODES;

// No stage that is written has more bytes, on either board: trees are of more inputs.
pub const LONGEST_WRITTEN: usize = LONGEST_STAGE;

// No sharing stage sheet that is accepted has more bytes, whoever wrote it.
pub const LONGEST_DIAGRAMS: usize = SHEET_FRAME
    + DIAGRAM_FRAME * Sheet::WIRES
    + SELECTOR_BYTES * Sheet::WIRES * MOST_ENTRIES;
