// The first answer, one wire after the other (QuickSolver of source 001, section 6.2).
// Inner functions: `keep_first` and `quick` meet what they require.
ghost use Rattle.std.specs.Prelude.{◌≡◌, cond, ◌+◌, ◌%◌, ◌<◌, get_or, set as put};
ghost use Rattle.sheet.specs.Limits.{max_wires};
ghost use Rattle.nodes.specs.Counts.{most_inputs, count_of};
ghost use Rattle.relation.specs.Tests.{of_sets};
ghost use Rattle.branch_bound.specs.Search.{start};
ghost use Rattle.branch_bound.specs.Boards.{board_of};
ghost use Rattle.parts.specs.Inner.Boards.{lent_kind, lent_inputs, lent_wires, Lent};
ghost use Rattle.sheet.specs.Inner.Sized.{Sized};
ghost use Rattle.parts.specs.Inner.Parts.{PartSets};
ghost use Rattle.parts.specs.Inner.Picks.{table_of};
ghost use Rattle.table.specs.Inner.Ranks.{narrow_space};
ghost use Rattle.visits.specs.Inner.States.{joined_of};

use branch_bound::State;
use parts::boards::{BOARD_PLACE, WIRES_PLACE, inputs_of, is_wide};
use parts::masks::masks_of;
use parts::pairs::pair_of;
use parts::picks::{cells_in, pick_at, side_in};
use parts::states::Running;
use relation::patterns::agreeing;
use sheet::Sheet;
use table::picks::LENT;
use visits::states::joined;

// Wire j's table, of which a pick has the first section: on a wide board the state has the others.
fn table_at(wide: bool, found: u32, j: u8, state: &Running) -> u64
    requires { j < max_wires }
    ensures { result ≡ cond wide
        (found % narrow_space + joined_of 0 (get_or state.now.rest 0 0) (get_or state.now.rest 1 0) (get_or state.now.rest 2 0) j)
        (found % narrow_space) }
{
    let low = side_in(found);
    if wide {
        return low + joined(0, state.rest[0], state.rest[1], state.rest[2], j);
    }
    low
}

// Wire j's pick once the wires before it are chosen: its table is put in its place, and its cells are the result. Before the first wire nothing is chosen: its pick
// is the whole relation's, which the caller has.
fn pick_left(
    e: &[u32; LENT],
    left: &[u16; Sheet::MAX_PATTERNS],
    j: u8,
    table: u64,
    first: u32,
    tables: &mut [u64; Sheet::WIRES],
    state: &mut Running,
) -> u32
    requires { Lent e.now × Sized (most_inputs (lent_kind e.now)) (lent_inputs e.now) (lent_wires e.now) × PartSets (lent_inputs e.now) (lent_wires e.now) left.now × (j < max_wires)
        × (j ≡ 0 → (table ≡ table_of (lent_kind e.now) (lent_inputs e.now) left.now 0) × (first ≡ count_of (lent_kind e.now) (lent_inputs e.now) table)) }
    ensures { (tables.new ≡ put tables.old j (table_of (lent_kind e.now) (lent_inputs e.now) left.now j))
        × (result ≡ count_of (lent_kind e.now) (lent_inputs e.now) (table_of (lent_kind e.now) (lent_inputs e.now) left.now j)) }
{
    if j == 0 {
        tables[0] = table;
        return first;
    }
    let board = e[BOARD_PLACE] as u8;
    let words = pair_of(inputs_of(board), left, j);
    let masks = masks_of(&words);
    let found = pick_at(e, &masks, j, state);
    tables[j as usize] = table_at(is_wide(board), found, j, state);
    cells_in(found)
}

pub fn quick(
    e: &[u32; LENT],
    sets: [u16; Sheet::MAX_PATTERNS],
    table: u64,
    first: u32,
    state: &mut Running,
) -> State
    requires { Lent e.now × Sized (most_inputs (lent_kind e.now)) (lent_inputs e.now) (lent_wires e.now) × PartSets (lent_inputs e.now) (lent_wires e.now) sets
        × (table ≡ table_of (lent_kind e.now) (lent_inputs e.now) sets 0) × (first ≡ count_of (lent_kind e.now) (lent_inputs e.now) table) }
    ensures { result ≡ start (board_of (lent_kind e.now) (lent_inputs e.now) (lent_wires e.now)) (of_sets sets) }
{
    let n = inputs_of(e[BOARD_PLACE] as u8);
    let m = e[WIRES_PLACE] as u8;
    let mut left = sets;
    let mut tables = [0u64; Sheet::WIRES];
    let mut cells: u32 = 0;
    for j in 0..m {
        cells += pick_left(e, &left, j, table, first, &mut tables, state);
        let next = agreeing(n, left, j, tables[j as usize]);
        left = next;
    }
    State {
        tables,
        cells,
        visits: 0,
        stopped: false,
    }
}
