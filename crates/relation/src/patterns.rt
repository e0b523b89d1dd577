// The sets of all patterns (input vertices) together, narrowed, and the value that tables drive on one of them.
// Inner functions: the search and the audit meet what they require, wires, bits and patterns that there are.
ghost use Rattle.std.specs.Prelude.{◌≡◌, cond, get_or, ◌*◌, ◌<◌, ◌≤◌, eqb};
ghost use Rattle.std.specs.Int.Bits.{bit_and};
ghost use Rattle.sheet.specs.Limits.{max_inputs, max_wires, max_patterns, max_values};
ghost use Rattle.table.specs.Bits.{bit, tabulate};
ghost use Rattle.table.specs.Inner.Pairs.{narrow_patterns};
ghost use Rattle.table.specs.Inner.Ranks.{narrow_space};
ghost use Rattle.table.specs.Inner.Wide.{sections};
ghost use Rattle.relation.specs.Source.{value};
ghost use Rattle.table.specs.Cells.{wires};
ghost use Rattle.relation.specs.Inner.Side.{section, side_by_side, value_in};
ghost use Rattle.relation.specs.Inner.Narrowed.{NonePast, agreed, cleared};

use sheet::Sheet;
use sheet::limits::patterns_of;
use table::columns::column;
use table::wide::{SECTION, SECTION_SPACE};

// Where the numbers of wires 1, 2 and 3 begin beside that of wire 0.
pub const SIDE_1: u64 = 1 << SECTION;

pub const SIDE_2: u64 = 1 << (2 * SECTION);

pub const SIDE_3: u64 = 1 << (3 * SECTION);

// The lowest bit of each of the four sections.
const LOWEST: u64 = 1 + SIDE_1 + SIDE_2 + SIDE_3;

// Moved down by so many bits, the lowest bit of a section stands one above that of the section below it; by twice as many, two such bits stand
// above two.
const TOGETHER: u64 = SECTION as u64 - 1;

const TWICE_TOGETHER: u64 = 2 * SECTION as u64 - 2;

const VALUES: u64 = Sheet::MAX_VALUES as u64;

// Bit p of a table.
pub fn bit_of(table: u64, p: u8) -> u64
    requires { p < max_patterns }
    ensures { (result ≡ bit table p) × (result < 2) }
{
    (table >> p) % 2
}

// The value that the tables of all wires drive on pattern p.
pub fn value_of(tables: [u64; Sheet::WIRES], p: u8) -> u8
    requires { p < max_patterns }
    ensures { (result ≡ value max_wires (wires tables) p) × (result < max_values) }
{
    (bit_of(tables[0], p)
        + 2 * bit_of(tables[1], p)
        + 4 * bit_of(tables[2], p)
        + 8 * bit_of(tables[3], p)) as u8
}

// Section q of a table.
pub fn section_of(table: u64, q: u8) -> u64
    requires { narrow_patterns * q < max_patterns }
    ensures { (result ≡ section table q) × (result < narrow_space) }
{
    (table >> (SECTION * q)) % SECTION_SPACE
}

// Section q of the tables of all wires side by side in one number, so that the value on a pattern takes one shift. Four sections fill the number.
pub fn side_by_side(tables: &[u64; Sheet::WIRES], q: u8) -> u64
    requires { q < sections }
    ensures { result ≡ side_by_side tables.now q }
{
    section_of(tables[0], q)
        + section_of(tables[1], q) * SIDE_1
        + section_of(tables[2], q) * SIDE_2
        + section_of(tables[3], q) * SIDE_3
}

// The value that tables side by side drive on the p-th pattern of their section: their bits there are moved together.
pub fn value_in(side: u64, p: u8) -> u8
    requires { p < narrow_patterns }
    ensures { (result ≡ value_in side p) × (result < max_values) }
{
    let bits = (side >> p) & LOWEST;
    let pairs = bits + (bits >> TOGETHER);
    ((pairs + (pairs >> TWICE_TOGETHER)) % VALUES) as u8
}

// The column of a wire's bit, of its two columns: both are looked up before, so that a pattern costs no look-up.
fn choose(bit: u64, zero: u16, one: u16) -> u16
    ensures { result ≡ cond (eqb bit 1) one zero }
{
    if bit == 1 { one } else { zero }
}

// The sets of n inputs once wire j has table t. Only the patterns there are cost something: past them the sets are empty, and stay so.
pub fn agreeing(
    n: u8,
    sets: [u16; Sheet::MAX_PATTERNS],
    j: u8,
    t: u64,
) -> [u16; Sheet::MAX_PATTERNS]
    requires { (n ≤ max_inputs) × (j < max_wires) × NonePast n sets }
    ensures { result ≡ agreed sets j t }
{
    let zero = column(j, 0);
    let one = column(j, 1);
    let count = patterns_of(n);
    let mut next = sets;
    for p in 0..count {
        let at = p as usize;
        next[at] = sets[at] & choose(bit_of(t, p), zero, one);
    }
    next
}

// The sets with those past the last pattern of n inputs emptied.
pub fn clear_past(n: u8, sets: [u16; Sheet::MAX_PATTERNS]) -> [u16; Sheet::MAX_PATTERNS]
    requires { n ≤ max_inputs }
    ensures { result ≡ cleared n sets }
{
    let mut next = [0; Sheet::MAX_PATTERNS];
    for p in 0..patterns_of(n) {
        let at = p as usize;
        next[at] = sets[at];
    }
    next
}

// What both sets of each pattern have. All sets are gone through, since so many at once cost less than counting those there are.
pub fn in_both(
    first: [u16; Sheet::MAX_PATTERNS],
    second: [u16; Sheet::MAX_PATTERNS],
) -> [u16; Sheet::MAX_PATTERNS]
    ensures { result ≡ tabulate max_patterns (λ p. bit_and (get_or first p 0) (get_or second p 0)) }
{
    let mut both = first;
    for at in 0..Sheet::MAX_PATTERNS {
        both[at] = first[at] & second[at];
    }
    both
}
