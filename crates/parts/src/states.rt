// The state that the search lends down. What the search makes of it is the crate `visits`.
// Inner function: the picks meet what it requires.
ghost use Rattle.std.specs.Prelude.{true, ◌<◌};
ghost use Rattle.sheet.specs.Limits.{max_wires};
ghost use Rattle.parts.specs.Inner.States.{PutRest};

use by_value::VALUE_WORDS;
use lanes::put_lane;
use relation::patterns::section_of;
use table::wide::SECTIONS;

// The sections past the first.
pub const RESTS: usize = SECTIONS as usize - 1;

// What a running search has found and charged, what it may charge, and what it knows of the part at hand.
#[derive(Clone, Copy)]
pub struct Running {
    // The best tables so far, side by side on each section, and their cells.
    pub best: [u64; SECTIONS as usize],
    pub cells: u32,
    // The visits charged, whether a part was left, and the budget.
    pub visits: u32,
    pub left: bool,
    pub budget: u32,
    // The tables of the part at hand on the sections past the first, side by side.
    pub rest: [u64; RESTS],
    // The whole relation by value.
    pub whole: [u64; VALUE_WORDS],
}

// Wire j has this table on the sections past the first.
pub fn put_rest(state: &mut Running, j: u8, table: u64)
    requires { j < max_wires }
    ensures { PutRest true j table state.old state.new }
{
    state.rest = [
        put_lane(state.rest[0], j, section_of(table, 1)),
        put_lane(state.rest[1], j, section_of(table, 2)),
        put_lane(state.rest[2], j, section_of(table, 3)),
    ];
}
