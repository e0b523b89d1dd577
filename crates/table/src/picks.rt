// The pick between two masks by halving: the best table that is 0 only on patterns of the mask `zeros` and 1 only on patterns of the mask `ones`.
// Both masks come in one number, the pair: a byte for each four patterns, `zeros` in its upper half and `ones` in its lower.
// A result is one number: a key, which is one more than the cells, then the table; `pick` makes it the rank, cells and table. Blocks of two inputs are looked
// up in a table that the caller lends, since a constant is copied by every function that names it. Each byte of the pair is the place of a block in that
// table, so no place has to be made.
ghost use Rattle.std.specs.Prelude.{◌≡◌, ◌+◌, ◌*◌, ◌/◌, ◌%◌, ◌^◌, ◌<◌, ◌≤◌};
ghost use Rattle.table.specs.Cells.{cells};
ghost use Rattle.table.specs.Inner.Ranks.{pick_of, rank, narrow_space};
ghost use Rattle.table.specs.Inner.Blocks.{entries, three_space, no_table, no_entry, block_at, Blocks, HalvesShow, PickShown, Covered};
ghost use Rattle.table.specs.Inner.Lines.{line_by};
ghost use Rattle.table.specs.Inner.Pairs.{narrow_inputs, zeros_in, ones_in};

use crate::cell_counts::INPUT_ONE;

// Up to so many inputs the masks of a wire are one number, and a pick is one number.
pub const NARROW_INPUTS: u8 = 4;

pub const NARROW_PATTERNS: usize = 1 << NARROW_INPUTS;

// A block is of two inputs: so many patterns.
pub const BLOCK_PATTERNS: u8 = 4;

// The tables of one input, of a block of two and of three inputs are the numbers below these: a table has a bit for each pattern.
pub const ONE_SPACE: u32 = 4;

pub const BLOCK_SPACE: u32 = 1 << BLOCK_PATTERNS;

pub const THREE_SPACE: u32 = BLOCK_SPACE * BLOCK_SPACE;

// Times this, a number below ONE_SPACE stands twice side by side.
const BESIDE_ITSELF: u32 = ONE_SPACE + 1;

// Above every table of so few inputs: a bit for each pattern.
pub const NARROW_SPACE: u32 = 1 << NARROW_PATTERNS;

// A pair of masks of a block is a byte, the place of its entry: so many places.
pub const PLACES: u32 = BLOCK_SPACE * BLOCK_SPACE;

pub const ENTRIES: usize = PLACES as usize;

// Behind the entries the search keeps the numbers of its board, of its wires and of its patterns: so many places.
const KEPT_BEHIND: usize = 3;

// The length of the table that is lent for picks.
pub const LENT: usize = ENTRIES + KEPT_BEHIND;

// What the lowest bits of the third and of the fourth byte of a pair count for.
pub const THIRD_BYTE: u32 = PLACES * PLACES;

pub const FOURTH_BYTE: u32 = THIRD_BYTE * PLACES;

// The first of three inputs, or of four, as a number that shows it: its key is 1. What a pair needs for it to suit are the zeros of the lower half and the ones
// of the upper half.
const LINE_OF_THREE: u32 = THREE_SPACE + 0xf0;

const LINE_OF_FOUR: u32 = NARROW_SPACE + INPUT_ONE as u32;

const NEEDS_OF_THREE: u32 = 0x0ff0;

const NEEDS_OF_FOUR: u32 = 0x0f0ff0f0;

// Where no table suits: more than any table counts for.
pub const NO_TABLE: u32 = 128;

// The pick of each pair of masks of two inputs, at zeros * BLOCK_SPACE + ones: its key, one more than its cells, times THREE_SPACE, and table * 17, the table
// twice side by side. Where some pattern is in no mask there is none: NO_TABLE for its key. The places past
// the entries are the search's.
const BLOCKS: [u32; LENT] = [
    0x8000, 0x8000, 0x8000, 0x8000, 0x8000, 0x8000, 0x8000, 0x8000, 0x8000, 0x8000, 0x8000, 0x8000,
    0x8000, 0x8000, 0x8000, 0x01ff, 0x8000, 0x8000, 0x8000, 0x8000, 0x8000, 0x8000, 0x8000, 0x8000,
    0x8000, 0x8000, 0x8000, 0x8000, 0x8000, 0x8000, 0x02ee, 0x01ff, 0x8000, 0x8000, 0x8000, 0x8000,
    0x8000, 0x8000, 0x8000, 0x8000, 0x8000, 0x8000, 0x8000, 0x8000, 0x8000, 0x03dd, 0x8000, 0x01ff,
    0x8000, 0x8000, 0x8000, 0x8000, 0x8000, 0x8000, 0x8000, 0x8000, 0x8000, 0x8000, 0x8000, 0x8000,
    0x01cc, 0x01cc, 0x01cc, 0x01cc, 0x8000, 0x8000, 0x8000, 0x8000, 0x8000, 0x8000, 0x8000, 0x8000,
    0x8000, 0x8000, 0x8000, 0x02bb, 0x8000, 0x8000, 0x8000, 0x01ff, 0x8000, 0x8000, 0x8000, 0x8000,
    0x8000, 0x8000, 0x8000, 0x8000, 0x8000, 0x8000, 0x01aa, 0x01aa, 0x8000, 0x8000, 0x01aa, 0x01aa,
    0x8000, 0x8000, 0x8000, 0x8000, 0x8000, 0x8000, 0x8000, 0x8000, 0x8000, 0x0399, 0x8000, 0x02bb,
    0x8000, 0x0399, 0x8000, 0x01ff, 0x8000, 0x8000, 0x8000, 0x8000, 0x8000, 0x8000, 0x8000, 0x8000,
    0x0288, 0x0288, 0x01aa, 0x01aa, 0x01cc, 0x01cc, 0x01aa, 0x01aa, 0x8000, 0x8000, 0x8000, 0x8000,
    0x8000, 0x8000, 0x8000, 0x0377, 0x8000, 0x8000, 0x8000, 0x8000, 0x8000, 0x8000, 0x8000, 0x01ff,
    0x8000, 0x8000, 0x8000, 0x8000, 0x8000, 0x8000, 0x0366, 0x0366, 0x8000, 0x8000, 0x8000, 0x8000,
    0x8000, 0x8000, 0x02ee, 0x01ff, 0x8000, 0x8000, 0x8000, 0x8000, 0x8000, 0x0255, 0x8000, 0x0255,
    0x8000, 0x8000, 0x8000, 0x8000, 0x8000, 0x0255, 0x8000, 0x01ff, 0x8000, 0x8000, 0x8000, 0x8000,
    0x0344, 0x0255, 0x0344, 0x0255, 0x8000, 0x8000, 0x8000, 0x8000, 0x01cc, 0x01cc, 0x01cc, 0x01cc,
    0x8000, 0x8000, 0x8000, 0x0233, 0x8000, 0x8000, 0x8000, 0x0233, 0x8000, 0x8000, 0x8000, 0x0233,
    0x8000, 0x8000, 0x8000, 0x01ff, 0x8000, 0x8000, 0x0222, 0x0222, 0x8000, 0x8000, 0x0222, 0x0222,
    0x8000, 0x8000, 0x01aa, 0x01aa, 0x8000, 0x8000, 0x01aa, 0x01aa, 0x8000, 0x0311, 0x8000, 0x0233,
    0x8000, 0x0255, 0x8000, 0x0233, 0x8000, 0x0311, 0x8000, 0x0233, 0x8000, 0x0255, 0x8000, 0x01ff,
    0x0100, 0x0100, 0x0100, 0x0100, 0x0100, 0x0100, 0x0100, 0x0100, 0x0100, 0x0100, 0x0100, 0x0100,
    0x0100, 0x0100, 0x0100, 0x0100, 0, 0, 0,
];

// The table of blocks, to be lent to the functions below.
pub fn blocks() -> [u32; LENT]
    ensures { Blocks result }
{
    BLOCKS
}

// Two inputs: an entry of the table.
fn block(e: &[u32; LENT], at: u32) -> u32
    requires { Blocks e.now × (at < entries) }
    ensures { (result ≡ block_at at) × (three_space ≤ result) × (result ≤ no_entry) }
{
    e[at as usize]
}

// The line of an input where a pair has what it needs, and another number where it does not.
fn line_or(pair: u32, needed: u32, line: u32, other: u32) -> u32
    ensures { result ≡ line_by pair needed line other }
{
    if pair & needed == needed { line } else { other }
}

// Three inputs, from the lower two bytes of a pair, which are the places of the lower and the upper half: key * THREE_SPACE + table. Two places, bit by bit
// together, are the place of what both blocks have. Keys have one more than the cells, so that those of two halves add up to that of both under a selector.
// Where the line suits it is less than any two halves.
fn pick3(e: &[u32; LENT], pair: u32) -> u32
    requires { Blocks e.now }
    ensures { HalvesShow (pair % entries) (pair / entries % entries) result × (three_space ≤ result) × (result ≤ no_entry) }
{
    let low = pair % PLACES;
    let high = pair / PLACES % PLACES;
    let a = block(e, low);
    let b = block(e, high);
    let c = block(e, low & high);
    let two = a / THREE_SPACE * THREE_SPACE + a % BLOCK_SPACE + b / BLOCK_SPACE * BLOCK_SPACE;
    c.min(line_or(pair, NEEDS_OF_THREE, LINE_OF_THREE, two))
}

// Four inputs, and no more: key * NARROW_SPACE + table. The four bytes of the pair are the places of its blocks, and two tables of three inputs side by side
// fill NARROW_SPACE.
pub fn pick4(e: &[u32; LENT], pair: u32) -> u32
    requires { Blocks e.now }
    ensures { PickShown 4 narrow_space (zeros_in pair) (ones_in pair) result × (narrow_space ≤ result) × (result ≤ no_table * narrow_space) }
{
    let upper = pair / THIRD_BYTE;
    let a = pick3(e, pair);
    let b = pick3(e, upper);
    let c = pick3(e, pair & upper);
    let two = a / THREE_SPACE * NARROW_SPACE + a % THREE_SPACE + b * THREE_SPACE;
    let twice = c * THREE_SPACE + c % THREE_SPACE;
    twice.min(line_or(pair, NEEDS_OF_FOUR, LINE_OF_FOUR, two))
}

// The rank of the pick between the two masks of a pair, among the tables of n inputs. The search calls it with the masks of a wire, which cover every
// pattern. There is an arm for each number of inputs up to four. The cells are one less than the key.
// One input is looked up as two, the patterns of each mask beside themselves.
pub fn pick(e: &[u32; LENT], n: u8, pair: u32) -> u32
    requires { Blocks e.now × (1 ≤ n) × (n ≤ narrow_inputs) × (zeros_in pair < 2 ^ (2 ^ n)) × (ones_in pair < 2 ^ (2 ^ n))
        × Covered n (zeros_in pair) (ones_in pair) }
    ensures { result ≡ rank (cells n) (pick_of (cells n) n (zeros_in pair) (ones_in pair)) }
{
    match n {
        1 => {
            let x = block(e, pair * BESIDE_ITSELF);
            (x / THREE_SPACE - 1) * NARROW_SPACE + x % ONE_SPACE
        }
        2 => {
            let x = block(e, pair);
            (x / THREE_SPACE - 1) * NARROW_SPACE + x % BLOCK_SPACE
        }
        3 => {
            let x = pick3(e, pair);
            (x / THREE_SPACE - 1) * NARROW_SPACE + x % THREE_SPACE
        }
        _ => pick4(e, pair) - NARROW_SPACE,
    }
}
