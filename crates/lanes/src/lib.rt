// What is kept for all wires side by side in one number: a lane of sixteen bits for each wire, so that one step is made for all four of them. The words of
// `by_value` have a lane for each of four values.
// Inner functions: the search meets what they require, wires that there are, and bits in the lanes where bits are asked for.
#![tactic(auto)]

ghost use Rattle.std.specs.Prelude.{◌≡◌, not, cond, ℕ, ◌<◌, eqb};
ghost use Rattle.sheet.specs.Limits.{max_wires};
ghost use Rattle.table.specs.Bits.{is_one};
ghost use Rattle.relation.specs.Tests.{occurs};
ghost use Rattle.relation.specs.Inner.Members.{member};
ghost use Rattle.lanes.specs.Inner.Lanes.{lane_space, half_lane, lanes_space, lane_of, lanes_of, put_lane, first_wire, LanesBelow, Chosen};

use sheet::Sheet;

// The bits of a lane: one for each value of a set.
pub const LANE: u8 = Sheet::MAX_VALUES as u8;

const LANE_SPACE: u64 = 1 << LANE;

// A lane with all its bits.
const FULL: u64 = LANE_SPACE - 1;

// The place of a lane's highest bit.
const TOP: u8 = LANE - 1;

// One in each lane. A set times it stands in every lane.
pub const LANES: u64 = 1 + (1 << LANE) + (1 << (2 * LANE)) + (1 << (3 * LANE));

// The highest bit of each lane.
const HIGHEST: u64 = LANES << TOP;

// In the lane of wire j the values that have the wire at 0. The highest value has every wire at 1, so the highest bit of each lane is 0.
const ZEROS: u64 = 0x00ff_0f0f_3333_5555;

// In the lane of wire j the values that have the wire at 1, each one bit lower, so that the highest bit of each lane is 0 here too. Value 0 has no wire
// at 1, so none is lost.
const ONES_LOWERED: u64 = 0x7f80_7878_6666_5555;

// The lane of wire j.
pub fn lane(x: u64, j: u8) -> u64
    requires { j < max_wires }
    ensures { (result ≡ lane_of x j) × (result < lane_space) }
{
    (x >> (LANE * j)) % LANE_SPACE
}

// The number once the lane of wire j is y: the old lane is taken off, and y is put there.
pub fn put_lane(x: u64, j: u8, y: u64) -> u64
    requires { (j < max_wires) × (y < lane_space) }
    ensures { result ≡ put_lane x j y }
{
    let at = LANE * j;
    x - (x & (FULL << at)) + (y << at)
}

// 1 in each lane that is 0, and 0 in the others: each lane is taken off its highest bit, which is left only where nothing was taken off. A lane
// without its highest bit is less than that bit, so none borrows from the next.
fn vacant(x: u64) -> u64
    requires { LanesBelow half_lane x }
    ensures { result ≡ lanes_of (λ j. is_one (eqb (lane_of x j) 0)) }
{
    ((HIGHEST - x) >> TOP) & LANES
}

// For each wire whether no value of a set has it at 0, with no branch and no loop over the wires.
pub fn no_zeros(set: u16) -> u64
    ensures { result ≡ lanes_of (λ j. is_one (not (occurs max_wires (member set) j 0))) }
{
    vacant((set as u64 * LANES) & ZEROS)
}

// For each wire whether no value of a set has it at 1. Set and values are both one bit lower, which changes no answer.
pub fn no_ones(set: u16) -> u64
    ensures { result ≡ lanes_of (λ j. is_one (not (occurs max_wires (member set) j 1))) }
{
    vacant(((set as u64 * LANES) >> 1) & ONES_LOWERED)
}

// Bit by bit one of two numbers: `one` where t has a 1.
pub fn choose(t: u64, zero: u64, one: u64) -> u64
    ensures { Chosen t zero one result }
{
    zero ^ ((zero ^ one) & t)
}

// The wires whose bit no value has any more: of a wire that drives 1 whether none has it at 1, of one that drives 0 whether none has it at 0.
pub fn broken(driven: u64, zeroless: u64, oneless: u64) -> u64
    requires { LanesBelow 2 driven × LanesBelow 2 zeroless × LanesBelow 2 oneless }
    ensures { ((j : ℕ) → j < max_wires → lane_of result j ≡ cond (eqb (lane_of driven j) 1) (lane_of oneless j) (lane_of zeroless j)) × LanesBelow 2 result × (result < lanes_space) }
{
    choose(driven, zeroless, oneless)
}

// The first wire whose bit is 1: the lowest bit of the number stands in its lane.
pub fn lowest_wire(x: u64) -> u8
    requires { LanesBelow 2 x × (0 < x) }
    ensures { (result ≡ first_wire x) × (result < max_wires) }
{
    (u64::trailing_zeros(x) / LANE as u32) as u8
}

// The number once the bit of that wire is 0: it is the number's lowest bit.
pub fn without_lowest(x: u64) -> u64
    requires { LanesBelow 2 x × (0 < x) }
    ensures { result ≡ put_lane x (first_wire x) 0 }
{
    x & (x - 1)
}
