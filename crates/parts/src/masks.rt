// The words as the cycle of the search keeps them, each in two halves of sixteen bits: the two masks of a wire on eight patterns. The halves of all wires on the same
// patterns stand one after the other, a row. A row side by side in one number is cut for all wires at once, with no branch: what occurs is not to be foretold.
// Inner functions: the search meets what they require.
ghost use Rattle.std.specs.Prelude.{◌≡◌, ◌+◌, ◌*◌, ◌/◌, ◌%◌, ◌<◌, ◌≤◌, length, get_or};
ghost use Rattle.sheet.specs.Limits.{max_wires, max_patterns};
ghost use Rattle.table.specs.Inner.Wide.{sections};
ghost use Rattle.lanes.specs.Inner.Lanes.{lane_space, lane_of, lanes_of};
ghost use Rattle.parts.specs.Inner.Pairs.{both_sides, lost_of};
ghost use Rattle.parts.specs.Inner.Masks.{row_patterns, mask_count, word_from, words_of, mask_row, with_lanes, cut_row};

use crate::pairs::{WORDS, seat_of};
use lanes::{lane, no_ones, no_zeros};
use relation::patterns::{SIDE_1, SIDE_2, SIDE_3};
use sheet::Sheet;
use table::picks::BLOCK_SPACE;
use table::wide::{SECTION, SECTION_SPACE};

// The patterns of a row.
pub const ROW: u8 = SECTION / 2;

pub const MASKS: usize = 2 * WORDS;

// Above every half of a word.
const HALF_SPACE: u32 = SECTION_SPACE as u32;

// The two halves of a word: the patterns of its section's first row, and those of the second.
fn low_half(word: u32) -> u16
    ensures { result ≡ word % lane_space }
{
    (word % HALF_SPACE) as u16
}

fn high_half(word: u32) -> u16
    ensures { result ≡ word / lane_space }
{
    (word / HALF_SPACE) as u16
}

// The words in their halves.
pub fn masks_of(words: &[u32; WORDS]) -> [u16; MASKS]
    ensures { (words_of result ≡ words.now) × (length result ≡ mask_count) }
{
    let mut masks = [0u16; MASKS];
    for i in 0..WORDS {
        let at = i / Sheet::WIRES * (2 * Sheet::WIRES) + i % Sheet::WIRES;
        masks[at] = low_half(words[i]);
        masks[at + Sheet::WIRES] = high_half(words[i]);
    }
    masks
}

// A number of the masks, in a number with room for a row.
fn half_at(masks: &[u16; MASKS], at: usize) -> u64
    requires { at < mask_count }
    ensures { (result ≡ get_or masks.now at 0) × (result < lane_space) }
{
    u64::from(masks[at])
}

// Wire j's word on section q, from its halves.
pub fn pair_at(masks: &[u16; MASKS], q: usize, j: u8) -> u32
    requires { (q < sections) × (j < max_wires) }
    ensures { result ≡ word_from masks.now q j }
{
    let at = 2 * Sheet::WIRES * q + j as usize;
    (half_at(masks, at) + half_at(masks, at + Sheet::WIRES) * SECTION_SPACE) as u32
}

// Where the row of pattern p begins.
fn row_place(p: u8) -> usize
    requires { p < max_patterns }
    ensures { (result ≡ p / row_patterns * max_wires) × (result + max_wires ≤ mask_count) }
{
    (p / ROW) as usize * Sheet::WIRES
}

// The row of pattern p side by side in one number.
pub fn row_of(masks: &[u16; MASKS], p: u8) -> u64
    requires { p < max_patterns }
    ensures { result ≡ mask_row masks.now (p / row_patterns) }
{
    let at = row_place(p);
    half_at(masks, at)
        + half_at(masks, at + 1) * SIDE_1
        + half_at(masks, at + 2) * SIDE_2
        + half_at(masks, at + 3) * SIDE_3
}

// Wire j's number of a row.
fn half_of(row: u64, j: u8) -> u16
    requires { j < max_wires }
    ensures { result ≡ lane_of row j }
{
    lane(row, j) as u16
}

// The masks with the row of pattern p replaced. The wires are written out, as `row_of` reads them: a loop over them is no plainer.
pub fn put_row(masks: &mut [u16; MASKS], p: u8, row: u64)
    requires { p < max_patterns }
    ensures { masks.new ≡ with_lanes masks.old (p / row_patterns) row }
{
    let at = row_place(p);
    masks[at] = half_of(row, 0);
    masks[at + 1] = half_of(row, 1);
    masks[at + 2] = half_of(row, 2);
    masks[at + 3] = half_of(row, 3);
}

// What does not occur of each wire in a set: a wire's two bits in its lane.
fn lost_in(set: u16) -> u64
    ensures { (result ≡ lanes_of (lost_of set)) × (result ≤ lanes_of (λ _. both_sides)) }
{
    no_ones(set) + BLOCK_SPACE as u64 * no_zeros(set)
}

// A row once pattern p has a set: the pattern goes from the masks of what no longer occurs.
pub fn cut_row(row: u64, p: u8, set: u16) -> u64
    requires { p < max_patterns }
    ensures { result ≡ cut_row row p set }
{
    row - (row & (lost_in(set) << seat_of(p % ROW)))
}
