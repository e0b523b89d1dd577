// The two masks of a wire: where it can be 0 and where it can be 1 (the projection of the relation on the wire). A pair is both masks on one section of the
// patterns in one number: a pattern's two bits stand four apart, and each byte is the place of a block in the table that picks are made from. The words are
// the pairs of all sections, one after the other, and in each section those of all wires. No step here branches: what occurs is not to be foretold.
// Inner functions: the picks, the first answer and the search meet what they require.
ghost use Rattle.std.specs.Prelude.{◌≡◌, ◌+◌, ◌*◌, ◌/◌, ◌%◌, ◌<◌, ◌≤◌, ◌^◌, set as put};
ghost use Rattle.sheet.specs.Limits.{max_inputs, max_wires, max_patterns};
ghost use Rattle.table.specs.Inner.Pairs.{narrow_patterns, block_patterns, pair_bits, seat};
ghost use Rattle.relation.specs.Inner.Narrowed.{NonePast};
ghost use Rattle.parts.specs.Inner.Pairs.{both_sides, bits_of, sides_of};
ghost use Rattle.table.specs.Inner.Wide.{sections};
ghost use Rattle.parts.specs.Inner.Words.{word_count, word_place, word_at, pairs_of, words_for};

use relation::values::has;
use sheet::Sheet;
use sheet::limits::patterns_of;
use table::picks::BLOCK_PATTERNS;
use table::wide::{SECTION, SECTIONS};

// The words of all sections.
pub const WORDS: usize = SECTIONS as usize * Sheet::WIRES;

// The patterns of a block have a bit each in either half of a byte.
const BLOCK: u8 = BLOCK_PATTERNS;

const BYTE: u8 = 2 * BLOCK;

// What the lowest bit of the upper half counts for.
const UPPER: u32 = 1 << BLOCK;

// A pattern's two bits: the first in the lower half of its byte, which is for a wire at 1, the second in the upper half, for a wire at 0.
fn bits_of(ones: bool, zeros: bool) -> u32
    ensures { (result ≡ bits_of ones zeros) × (result ≤ both_sides) }
{
    u32::from(ones) + UPPER * u32::from(zeros)
}

// What occurs of wire j in a set.
fn sides(set: u16, j: u8) -> u32
    requires { j < max_wires }
    ensures { (result ≡ sides_of set j) × (result ≤ both_sides) }
{
    bits_of(has(set, j, 1), has(set, j, 0))
}

// Where the bits of a section's pattern p stand: the lower of them.
pub fn seat_of(p: u8) -> u8
    requires { p < narrow_patterns }
    ensures { (result ≡ seat p) × (result + block_patterns < pair_bits) }
{
    p / BLOCK * BYTE + p % BLOCK
}

// A pair with pattern p, which it lacks, put in by its set.
fn put_pair(x: u32, p: u8, set: u16, j: u8) -> u32
    requires { (p < narrow_patterns) × (j < max_wires) × (x + both_sides * 2 ^ seat p < 2 ^ pair_bits) }
    ensures { result ≡ x + sides_of set j * 2 ^ seat p }
{
    x + (sides(set, j) << seat_of(p))
}

// Where the word of section q and wire j stands.
fn place_of(q: u8, j: u8) -> usize
    requires { (q < sections) × (j < max_wires) }
    ensures { (result ≡ word_place q j) × (result < word_count) }
{
    (q * Sheet::MAX_WIRES + j) as usize
}

// The words with pattern p, which they lack, put in for wire j by its set.
fn put_in(words: &mut [u32; WORDS], p: u8, set: u16, j: u8)
    requires { (p < max_patterns) × (j < max_wires) × (word_at words.old p j + both_sides * 2 ^ seat (p % narrow_patterns) < 2 ^ pair_bits) }
    ensures { words.new ≡ put words.old (word_place (p / narrow_patterns) j) (word_at words.old p j + sides_of set j * 2 ^ seat (p % narrow_patterns)) }
{
    let at = place_of(p / SECTION, j);
    words[at] = put_pair(words[at], p % SECTION, set, j);
}

// The words of one wire alone, in one pass over the patterns that there are.
pub fn pair_of(n: u8, sets: &[u16; Sheet::MAX_PATTERNS], j: u8) -> [u32; WORDS]
    requires { (n ≤ max_inputs) × (j < max_wires) × NonePast n sets.now }
    ensures { result ≡ words_for sets.now j }
{
    let count = patterns_of(n);
    let mut words = [0u32; WORDS];
    for p in 0..count {
        put_in(&mut words, p, sets[p as usize], j);
    }
    words
}

// The words of all wires, in one pass.
pub fn pairs_of(n: u8, sets: &[u16; Sheet::MAX_PATTERNS]) -> [u32; WORDS]
    requires { (n ≤ max_inputs) × NonePast n sets.now }
    ensures { result ≡ pairs_of sets.now }
{
    let count = patterns_of(n);
    let mut words = [0u32; WORDS];
    for p in 0..count {
        let set = sets[p as usize];
        for j in 0..Sheet::MAX_WIRES {
            put_in(&mut words, p, set, j);
        }
    }
    words
}
