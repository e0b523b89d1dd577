// The picks between the masks of a wire, on the board whose number stands behind the entries of the table lent. A pick's cells and its table on the first section are
// the result, in one number, which `cells_in` and `side_in` take apart, and its table on the other sections is put into the state of the search: so all that a
// pick is handed stands in registers.
// Inner functions: the search and the first answer meet what they require.
ghost use Rattle.std.specs.Prelude.{◌≡◌, true, ◌/◌, ◌%◌, ◌<◌, ◌≤◌, ◌^◌};
ghost use Rattle.sheet.specs.Limits.{max_wires};
ghost use Rattle.nodes.specs.Counts.{count_of};
ghost use Rattle.table.specs.Inner.Ranks.{narrow_space, pick_of, rank};
ghost use Rattle.table.specs.Inner.Blocks.{Covered};
ghost use Rattle.table.specs.Inner.Pairs.{zeros_in, ones_in};
ghost use Rattle.parts.specs.Inner.Boards.{wide_mark, board_in, lent_kind, lent_inputs, lent_wide, Lent};
ghost use Rattle.parts.specs.Inner.Words.{Covers};
ghost use Rattle.parts.specs.Inner.Masks.{words_of};
ghost use Rattle.parts.specs.Inner.Picks.{pick_on, side_rank};
ghost use Rattle.parts.specs.Inner.States.{PutRest};

use crate::boards::{BOARD_PLACE, SHARING, WIDE, is_wide};
use crate::masks::{MASKS, pair_at};
use crate::states::{Running, put_rest};
use nodes::picks::pick_shared;
use table::picks::{LENT, NARROW_INPUTS, NARROW_SPACE, pick};
use table::wide::{SECTION_SPACE, wide_pick};

// What the number of a pick tells: its cells, and its table on the first section.
pub fn cells_in(found: u32) -> u32
    ensures { result ≡ found / narrow_space }
{
    found / NARROW_SPACE
}

pub fn side_in(found: u32) -> u64
    ensures { (result ≡ found % narrow_space) × (result < narrow_space) }
{
    (found % NARROW_SPACE) as u64
}

// The pick on a wide board, from the words of all sections.
fn pick_wide(e: &[u32; LENT], board: u8, masks: &[u16; MASKS], j: u8, state: &mut Running) -> u32
    requires { Lent e.now × (board ≡ board_in e.now) × (wide_mark ≤ board) × (j < max_wires) × Covers (lent_inputs e.now) (words_of masks.now) j }
    ensures { (result ≡ side_rank e.now (words_of masks.now) j)
        × PutRest true j (pick_on e.now (words_of masks.now) j) state.old state.new }
{
    let found = wide_pick(
        e,
        board - WIDE,
        pair_at(masks, 0, j),
        pair_at(masks, 1, j),
        pair_at(masks, 2, j),
        pair_at(masks, 3, j),
    );
    put_rest(state, j, found.table);
    found.cells * NARROW_SPACE + (found.table % SECTION_SPACE) as u32
}

// The rank of the pick on any other board, whose masks stand in one word.
fn pick_narrow(e: &[u32; LENT], board: u8, x: u32) -> u32
    requires { Lent e.now × (board ≡ board_in e.now) × (board < wide_mark) × (zeros_in x < 2 ^ (2 ^ lent_inputs e.now)) × (ones_in x < 2 ^ (2 ^ lent_inputs e.now))
        × Covered (lent_inputs e.now) (zeros_in x) (ones_in x) }
    ensures { result ≡ rank (count_of (lent_kind e.now) (lent_inputs e.now))
        (pick_of (count_of (lent_kind e.now) (lent_inputs e.now)) (lent_inputs e.now) (zeros_in x) (ones_in x)) }
{
    if board < SHARING {
        pick(e, board, x)
    } else {
        pick_shared(e, board - SHARING, x)
    }
}

// The pick of wire j. The board of trees with as many inputs as one word has is asked for first: it is the commonest, and its pick then needs no register saved.
pub fn pick_at(e: &[u32; LENT], masks: &[u16; MASKS], j: u8, state: &mut Running) -> u32
    requires { Lent e.now × (j < max_wires) × Covers (lent_inputs e.now) (words_of masks.now) j }
    ensures { (result ≡ side_rank e.now (words_of masks.now) j)
        × PutRest (lent_wide e.now) j (pick_on e.now (words_of masks.now) j) state.old state.new }
{
    let board = e[BOARD_PLACE] as u8;
    if board == NARROW_INPUTS {
        return pick_narrow(e, NARROW_INPUTS, pair_at(masks, 0, j));
    }
    if is_wide(board) {
        return pick_wide(e, board, masks, j, state);
    }
    pick_narrow(e, board, pair_at(masks, 0, j))
}
