// The cycle of the search (document 01, "Search"): `visit` treats a part, `split` makes each of the two parts of one and has it visited. Each split closes a pair that was open.
// The sets and the masks are lent down: a split narrows those of its pattern and puts them back, so that no part is copied. Lent too is the state
// of the search. So few things are handed down that all of them but one stand in registers, and a call takes little of the stack.
// Inner functions: `search_whole` of the crate `search` and the cycle itself meet what they require.
#![tactic(auto)]

ghost use Rattle.std.specs.Prelude.{◌≡◌, ◌<◌};
ghost use Rattle.relation.specs.Tests.{of_sets, keep};
ghost use Rattle.branch_bound.specs.Search.{search_part};
ghost use Rattle.branch_bound.specs.Boards.{board_of};
ghost use Rattle.parts.specs.Inner.Boards.{lent_kind, lent_inputs, lent_wires};
ghost use Rattle.visits.specs.Inner.States.{SameRest, Ran};
ghost use Rattle.branches.specs.Inner.Parts.{Visitable, Splittable};
ghost use Rattle.branches.specs.Inner.Split.{Standing, Driven};

use halves::remaking::{again, cut_at, lost_wires};
use halves::tables::{begin_at, driven_on, restore, saved};
use parts::boards::{BOARD_PLACE, is_wide};
use parts::cells::sum_of;
use parts::masks::{MASKS, put_row, row_of};
use parts::states::Running;
use relation::values::with_bit;
use sheet::Sheet;
use table::picks::LENT;
use visits::conflicts::first_open;
use visits::states::{charge, keep, leave};

// What a split reads of its pattern before either part is made: the pattern, its set and its row of the masks as they stand, and the bits that the tables drive there.
#[derive(Clone, Copy)]
struct Pattern {
    p: u8,
    set: u16,
    row: u64,
    driven: u64,
}

// Steps 2 to 4 of the search for one part, whose cells are fewer than the best: who calls it has made step 1. Its picks are allowed on the patterns below `from`.
// Of the two parts of a split the one with wire j at 0 comes before the one with it at 1. A part whose cells reach the best is not visited: it would be discarded.
#[cycle(split_visit)]
pub fn visit(
    e: &[u32; LENT],
    sets: &mut [u16; Sheet::MAX_PATTERNS],
    masks: &mut [u16; MASKS],
    state: &mut Running,
    low: u64,
    cells: u64,
    from: u8,
)
    requires { Visitable e.now sets.old masks.old state.old low cells from }
    ensures { (sets.new ≡ sets.old) × (masks.new ≡ masks.old) × SameRest state.old state.new
        × Ran (search_part (board_of (lent_kind e.now) (lent_inputs e.now) (lent_wires e.now)) state.old.budget (of_sets sets.old)) state.old state.new }
{
    if !charge(state) {
        leave(state);
        return;
    }
    let Some((p, j)) = first_open(e, from, sets, state, low) else {
        keep(state, low, u64::from(sum_of(cells)));
        return;
    };
    let at = Pattern {
        p,
        set: sets[p as usize],
        row: row_of(masks, p),
        driven: driven_on(state, low, p),
    };
    split(e, sets, masks, state, low, cells, at, j, 0);
    if u64::from(sum_of(cells)) < state.cells {
        split(e, sets, masks, state, low, cells, at, j, 1);
    }
}

// One part of a split, wire j at b: its masks are cut, the picks that no longer fit are made again, and it is visited where its cells stay below the best. Then the row and the
// set of the pattern are put back. Put in line in both places: as a function of its own it is slower.
#[cycle(split_visit)]
#[inline(always)]
fn split(
    e: &[u32; LENT],
    sets: &mut [u16; Sheet::MAX_PATTERNS],
    masks: &mut [u16; MASKS],
    state: &mut Running,
    low: u64,
    cells: u64,
    at: Pattern,
    j: u8,
    b: u8,
)
    requires { Splittable e.now sets.old masks.old state.old low cells at.p j × Standing sets.old masks.old at × Driven e.now sets.old at × (b < 2) }
    ensures { (sets.new ≡ sets.old) × (masks.new ≡ masks.old) × SameRest state.old state.new
        × Ran (search_part (board_of (lent_kind e.now) (lent_inputs e.now) (lent_wires e.now)) state.old.budget (keep (of_sets sets.old) at.p j b)) state.old state.new }
{
    let wide = is_wide(e[BOARD_PLACE] as u8);
    let rest = saved(wide, state);
    let left = with_bit(at.set, j, b);
    cut_at(masks, at.p, at.row, left);
    let lost = lost_wires(at.driven, left);
    if let Some(found) = again(e, masks, state, lost, low, cells) {
        sets[at.p as usize] = left;
        let from = begin_at(e, state, lost, found.low, at.p);
        visit(e, sets, masks, state, found.low, found.cells, from);
    }
    restore(wide, state, rest);
    put_row(masks, at.p, at.row);
    sets[at.p as usize] = at.set;
}
