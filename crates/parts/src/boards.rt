// A board and its inputs as one number: the search looks at its board by it alone, but for its entry, where the table is lent that picks on the board are
// made from.
// Inner functions: the entry of the search has tested the sizes before it calls `board_of`, which requires them.
ghost use Rattle.std.specs.Prelude.{◌≡◌, ◌≤◌, leb};
ghost use Rattle.nodes.specs.Counts.{most_inputs};
ghost use Rattle.parts.specs.Inner.Boards.{wide_mark, board_number, board_inputs};

use nodes::BoardKind;
use table::picks::{ENTRIES, NARROW_INPUTS};

// Behind the entries of a table that is lent for picks stand the number of the board, that of the wires and that of the patterns.
pub const BOARD_PLACE: usize = ENTRIES;

pub const WIRES_PLACE: usize = BOARD_PLACE + 1;

pub const COUNT_PLACE: usize = WIRES_PLACE + 1;

// What marks the board that shares: above the inputs of every board.
pub const SHARING: u8 = 8;

// What marks a board of trees with more inputs than the masks of one number have: above every number of the other boards.
pub const WIDE: u8 = 16;

pub fn board_of(kind: BoardKind, n: u8) -> u8
    requires { n ≤ most_inputs kind }
    ensures { result ≡ board_number kind n }
{
    match kind {
        BoardKind::Tree => { if n <= NARROW_INPUTS { n } else { WIDE + n } }
        BoardKind::Sharing => SHARING + n,
    }
}

pub fn inputs_of(board: u8) -> u8
    ensures { result ≡ board_inputs board }
{
    board % SHARING
}

pub fn is_wide(board: u8) -> bool
    ensures { result ≡ leb wide_mark board }
{
    WIDE <= board
}
