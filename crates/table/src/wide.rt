// The pick of five and of six inputs (document 02, E5), from picks of four: what suits both halves is taken for both, or each half has its own, or the first
// input is soldered through. Sixteen patterns come in one pair of masks (`picks`): two pairs for five inputs and four for six, the first for the lowest patterns.
// Of five inputs the key and the table stand in one number; a table of six inputs fills a number by itself.
// Inner functions: the parts of a search meet what they require.
ghost use Rattle.std.specs.Prelude.{◌≡◌, cond, ◌+◌, ◌*◌, ◌/◌, ◌%◌, ◌^◌, ◌<◌, ◌≤◌, min};
ghost use Rattle.sheet.specs.Limits.{max_inputs};
ghost use Rattle.table.specs.Cells.{cells};
ghost use Rattle.table.specs.Inner.Ranks.{pick_of, narrow_space};
ghost use Rattle.table.specs.Inner.Blocks.{no_table, Blocks, PickShown, Covered};
ghost use Rattle.table.specs.Inner.Pairs.{narrow_inputs, zeros_in, ones_in};
ghost use Rattle.table.specs.Inner.Wide.{five_space, six_space, four_masks, has_seats, all_covered, line_fits, line_of_five, line_of_six, FiveShown, SixShown};

use crate::picks::{
    BLOCK_SPACE, LENT, NARROW_INPUTS, NARROW_PATTERNS, NARROW_SPACE, NO_TABLE, pick4,
};
use sheet::Sheet;

// A pick: its cells, and its table.
#[derive(Clone, Copy)]
pub struct Pick {
    pub cells: u32,
    pub table: u64,
}

// A section of a table is its bits on as many patterns as four inputs have: the patterns of a section, the sections of the largest table, and above every
// section.
pub const SECTION: u8 = NARROW_PATTERNS as u8;

pub const SECTIONS: u8 = Sheet::MAX_PATTERNS as u8 / SECTION;

pub const SECTION_SPACE: u64 = NARROW_SPACE as u64;

// A table of two sections has one input more than a section, and is below this.
const FIVE_INPUTS: u8 = NARROW_INPUTS + 1;

const FIVE_SPACE: u64 = SECTION_SPACE * SECTION_SPACE;

// Where no table suits.
const NONE_OF_FOUR: u64 = NO_TABLE as u64 * SECTION_SPACE;

const NONE_OF_FIVE: u64 = NO_TABLE as u64 * FIVE_SPACE;

// The seats of a pair for patterns that can be 0, and for those that can be 1.
const ZERO_SEATS: u32 = 0xf0f0f0f0;

const ONE_SEATS: u32 = 0x0f0f0f0f;

// The first of five inputs as a number that shows it, and the first of six as a table: its key is 1 at either width.
const LINE_OF_FIVE: u64 = FIVE_SPACE + 0xffff0000;

const LINE_OF_SIX: u64 = 0xffffffff00000000;

const LINE_KEY: u64 = 1;

// A pair has all of some seats.
fn has_seats(pair: u32, seats: u32) -> bool
    ensures { result ≡ has_seats pair seats }
{
    pair & seats == seats
}

// Every pattern can be 0 or 1: the seats for 0 come down beside those for 1.
fn all_covered(pair: u32) -> bool
    ensures { result ≡ all_covered pair }
{
    has_seats(pair | (pair / BLOCK_SPACE), ONE_SEATS)
}

// All of the lower half can be 0, and all of the upper half can be 1.
fn line_fits(low: u32, high: u32) -> bool
    ensures { result ≡ line_fits low high }
{
    has_seats(low, ZERO_SEATS) && has_seats(high, ONE_SEATS)
}

// Four inputs. What two halves have in common often leaves a pattern neither 0 nor 1: then nothing is looked up.
fn common_four(e: &[u32; LENT], pair: u32) -> u64
    requires { Blocks e.now }
    ensures { PickShown narrow_inputs narrow_space (zeros_in pair) (ones_in pair) result × (narrow_space ≤ result) × (result ≤ no_table * narrow_space) }
{
    if all_covered(pair) {
        pick4(e, pair) as u64
    } else {
        NONE_OF_FOUR
    }
}

// The line of five inputs where it suits, and another number where it does not.
fn five_line_or(low: u32, high: u32, other: u64) -> u64
    ensures { result ≡ cond (line_fits low high) line_of_five other }
{
    if line_fits(low, high) {
        LINE_OF_FIVE
    } else {
        other
    }
}

// Five inputs: key * FIVE_SPACE + table. Keys have one more than the cells, so that those of two halves add up (`picks`).
fn pick5(e: &[u32; LENT], low: u32, high: u32) -> u64
    requires { Blocks e.now }
    ensures { FiveShown low high result × (five_space ≤ result) × (result ≤ no_table * five_space) }
{
    let a = pick4(e, low) as u64;
    let b = pick4(e, high) as u64;
    let c = common_four(e, low & high);
    let two = a / SECTION_SPACE * FIVE_SPACE + a % SECTION_SPACE + b * SECTION_SPACE;
    let twice = c * SECTION_SPACE + c % SECTION_SPACE;
    twice.min(five_line_or(low, high, two))
}

// The same, where some pattern may be left neither 0 nor 1.
fn common_five(e: &[u32; LENT], low: u32, high: u32) -> u64
    requires { Blocks e.now }
    ensures { FiveShown low high result × (five_space ≤ result) × (result ≤ no_table * five_space) }
{
    if all_covered(low) && all_covered(high) {
        pick5(e, low, high)
    } else {
        NONE_OF_FIVE
    }
}

// A pick by its key, which is one more than its cells.
fn pick_by_key(key: u64, table: u64) -> Pick
    requires { (1 ≤ key) × (key ≤ 2 * no_table) }
    ensures { (1 + result.cells ≡ key) × (result.table ≡ table) }
{
    Pick {
        cells: (key - 1) as u32,
        table,
    }
}

// The lesser of two picks of six inputs, told by key and table.
fn lesser_pick(key: u64, table: u64, cost: u64, other: u64) -> Pick
    requires { (1 ≤ key) × (key ≤ 2 * no_table) × (1 ≤ cost) × (cost ≤ 2 * no_table) }
    ensures { (1 + result.cells) * six_space + result.table ≡ min (key * six_space + table) (cost * six_space + other) }
{
    if key < cost || (key == cost && table < other) {
        pick_by_key(key, table)
    } else {
        pick_by_key(cost, other)
    }
}

// Two halves of five inputs under a selector, or the line in their place; beside what both have in common, twice.
fn join6(low: u64, high: u64, both: u64, line: bool) -> Pick
    requires { (five_space ≤ low) × (low ≤ no_table * five_space) × (five_space ≤ high) × (high ≤ no_table * five_space) × (five_space ≤ both) × (both ≤ no_table * five_space) }
    ensures { (1 + result.cells) * six_space + result.table
        ≡ min (both / five_space * six_space + (both % five_space * five_space + both % five_space))
        (cond line line_of_six ((low / five_space + high / five_space) * six_space + (high % five_space * five_space + low % five_space))) }
{
    let key = both / FIVE_SPACE;
    let half = both % FIVE_SPACE;
    let table = half * FIVE_SPACE + half;
    if line {
        return lesser_pick(key, table, LINE_KEY, LINE_OF_SIX);
    }
    lesser_pick(
        key,
        table,
        low / FIVE_SPACE + high / FIVE_SPACE,
        high % FIVE_SPACE * FIVE_SPACE + low % FIVE_SPACE,
    )
}

// Six inputs. What two pairs have in common stands in one pair, bit by bit together.
fn pick6(e: &[u32; LENT], a: u32, b: u32, c: u32, d: u32) -> Pick
    requires { Blocks e.now }
    ensures { SixShown a b c d ((1 + result.cells) * six_space + result.table) }
{
    let low = pick5(e, a, b);
    let high = pick5(e, c, d);
    let both = common_five(e, a & c, b & d);
    join6(low, high, both, line_fits(a & b, c & d))
}

// The pick between the masks of four pairs, among the tables of n inputs, five or six; with five inputs the last two pairs are empty. The search calls it with
// the masks of a wire, which cover every pattern.
pub fn wide_pick(e: &[u32; LENT], n: u8, a: u32, b: u32, c: u32, d: u32) -> Pick
    requires { Blocks e.now × (narrow_inputs < n) × (n ≤ max_inputs)
        × (four_masks (zeros_in a) (zeros_in b) (zeros_in c) (zeros_in d) < 2 ^ (2 ^ n)) × (four_masks (ones_in a) (ones_in b) (ones_in c) (ones_in d) < 2 ^ (2 ^ n))
        × Covered n (four_masks (zeros_in a) (zeros_in b) (zeros_in c) (zeros_in d)) (four_masks (ones_in a) (ones_in b) (ones_in c) (ones_in d)) }
    ensures { (result.table ≡ pick_of (cells n) n (four_masks (zeros_in a) (zeros_in b) (zeros_in c) (zeros_in d)) (four_masks (ones_in a) (ones_in b) (ones_in c) (ones_in d)))
        × (result.cells ≡ cells n result.table) }
{
    if n == FIVE_INPUTS {
        let x = pick5(e, a, b);
        return Pick {
            cells: (x / FIVE_SPACE - 1) as u32,
            table: x % FIVE_SPACE,
        };
    }
    pick6(e, a, b, c, d)
}
