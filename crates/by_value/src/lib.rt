// The sets of a section's patterns the other way round: for each value the patterns where it can stand. Whether the values that four tables drive are
// allowed is so told of all patterns of a section at once, with no step for each pattern and no branch.
// A word has four lanes, one for each of four values, and a lane has one bit for each pattern of the section. Four words have all values of a section.
// Inner functions: the search meets what they require, sections and patterns that there are and words that lack the pattern put in.
#![tactic(auto)]

ghost use Rattle.std.specs.Prelude.{◌≡◌, cond, ℕ, ◌+◌, ◌*◌, ◌/◌, ◌%◌, ◌<◌, ◌≤◌, ◌^◌, eqb, get_or, length};
ghost use Rattle.sheet.specs.Limits.{max_patterns};
ghost use Rattle.table.specs.Bits.{bit};
ghost use Rattle.table.specs.Inner.Pairs.{narrow_patterns};
ghost use Rattle.table.specs.Inner.Ranks.{narrow_space};
ghost use Rattle.table.specs.Inner.Wide.{sections};
ghost use Rattle.lanes.specs.Inner.Lanes.{each_lane, lanes_of};
ghost use Rattle.by_value.specs.Inner.ByValue.{word_values, word_width, section_words, all_words, value_word_place, Allowing, values_in, added, value_word_at, HasRoom, with_word, with_set, filled, WordsBelow, first_refused};

use lanes::{LANE, LANES, choose, lane};
use sheet::Sheet;
use table::wide::{SECTION, SECTION_SPACE, SECTIONS};

// The values of a word, a lane for each: so many lanes fill its bits.
const WORD_VALUES: u8 = 4;

// The numbers of so many bits as a word has values are below this.
const VALUES_SPACE: u16 = 1 << WORD_VALUES;

// The words that have all values of a section, and of all sections.
pub const SECTION_WORDS: usize = Sheet::MAX_VALUES / WORD_VALUES as usize;

pub const VALUE_WORDS: usize = SECTION_WORDS * SECTIONS as usize;

// How far two lanes stand above the next lower two.
const TWO_LANES: u8 = 2 * LANE;

// Times this, a number of four bits has its bit i in lane i's lowest place too: each copy stands one place less than a lane above the one before.
const COPIES: u64 = 1 + (1 << (LANE - 1)) + (1 << (2 * (LANE - 1))) + (1 << (3 * (LANE - 1)));

// Every pattern of a section, and every value of a set.
const EVERY_PATTERN: u64 = SECTION_SPACE - 1;

const EVERY_VALUE: u16 = ((1u64 << Sheet::MAX_VALUES) - 1) as u16;

// A lane's number in each of the four lanes.
fn in_lanes(x: u64) -> u64
    requires { x < narrow_space }
    ensures { (i p : ℕ) → i < word_values → p < narrow_patterns → bit result (narrow_patterns * i + p) ≡ bit x p }
{
    x * LANES
}

// Lane j of a number in each of the four lanes, so that it can choose in each of them.
fn lane_in_lanes(x: u64, j: u8) -> u64
    requires { j < word_values }
    ensures { (i p : ℕ) → i < word_values → p < narrow_patterns → bit result (narrow_patterns * i + p) ≡ bit x (narrow_patterns * j + p) }
{
    in_lanes(lane(x, j))
}

// The patterns of a section that allow the value which four tables side by side drive there, by the section's four words. Wires 3 and 2 choose the word,
// each pattern for itself, wires 1 and 0 the lane.
pub fn allowing(a: u64, b: u64, c: u64, d: u64, tables: u64) -> u64
    ensures { (result < narrow_space) × Allowing a b c d tables result }
{
    let wire_3 = lane_in_lanes(tables, 3);
    let wire_2 = lane_in_lanes(tables, 2);
    let wire_1 = lane_in_lanes(tables, 1);
    let four = choose(wire_2, choose(wire_3, a, c), choose(wire_3, b, d));
    let two = choose(wire_1, four, four >> TWO_LANES);
    choose(tables, two, two >> LANE) % SECTION_SPACE
}

// The lowest pattern that is not fine.
pub fn first_refused(fine: u64) -> Option<u8>
    requires { fine < narrow_space }
    ensures { result ≡ first_refused fine }
{
    if fine == EVERY_PATTERN {
        None
    } else {
        Some(u64::trailing_zeros(fine ^ EVERY_PATTERN) as u8)
    }
}

// The values of word k that are in a set.
fn values_in(set: u16, k: u8) -> u64
    requires { k < section_words }
    ensures { (result ≡ values_in set k) × (result < 2 ^ word_values) }
{
    ((set >> (WORD_VALUES * k)) % VALUES_SPACE) as u64
}

// The values of a word with a lane for each.
fn spread(x: u64) -> u64
    requires { x < 2 ^ word_values }
    ensures { (result ≡ lanes_of (bit x)) × (result ≤ each_lane) }
{
    (x * COPIES) & LANES
}

// A word with the p-th pattern of its section, which it lacks, put in by the pattern's set.
fn put_lanes(word: u64, p: u8, set: u16, k: u8) -> u64
    requires { (p < narrow_patterns) × (k < section_words) × (word + each_lane * 2 ^ p < 2 ^ word_width) }
    ensures { result ≡ word + added set k p }
{
    word + (spread(values_in(set, k)) << p)
}

// Where word k of section q stands.
fn value_word_place(q: u8, k: u8) -> usize
    requires { (q < sections) × (k < section_words) }
    ensures { (result ≡ value_word_place q k) × (result < all_words) }
{
    SECTION_WORDS * q as usize + k as usize
}

// The words with pattern p, which they lack, put into word k of its section by its set.
fn put_word(words: &mut [u64; VALUE_WORDS], p: u8, set: u16, k: u8)
    requires { (p < max_patterns) × (k < section_words) × HasRoom (value_word_at words.old p k) p }
    ensures { words.new ≡ with_word words.old p set k }
{
    let at = value_word_place(p / SECTION, k);
    words[at] = put_lanes(words[at], p % SECTION, set, k);
}

// The words with pattern p, which they lack, put into all words of its section.
fn put_set(words: &mut [u64; VALUE_WORDS], p: u8, set: u16)
    requires { (p < max_patterns) × ((k : ℕ) → k < section_words → HasRoom (value_word_at words.old p k) p) }
    ensures { words.new ≡ with_set words.old p set }
{
    for k in 0..SECTION_WORDS as u8 {
        put_word(words, p, set, k);
    }
}

// The set of pattern p, where those from `count` on have every value.
fn set_at(count: u8, sets: &[u16; Sheet::MAX_PATTERNS], p: u8) -> u16
    requires { p < max_patterns }
    ensures { result ≡ get_or (filled count sets.now) p 0 }
{
    if p < count {
        sets[p as usize]
    } else {
        EVERY_VALUE
    }
}

// The words of the sections below pattern `seen`. Patterns from `count` on have every value, so that a section which the patterns do not fill refuses
// nothing there.
pub fn whole_of(count: u8, seen: u8, sets: &[u16; Sheet::MAX_PATTERNS]) -> [u64; VALUE_WORDS]
    requires { (seen ≤ max_patterns) × (seen % narrow_patterns ≡ 0) }
    ensures { WordsBelow seen (filled count sets.now) result }
{
    let mut words = [0u64; VALUE_WORDS];
    for p in 0..seen {
        put_set(&mut words, p, set_at(count, sets, p));
    }
    words
}
