// Sizes, and numbers of bits, against the limits of a sheet.
ghost use Rattle.std.specs.Prelude.{◌≡◌, ◌≤◌, ◌^◌, min};
ghost use Rattle.sheet.specs.Limits.{max_inputs, max_wires, max_patterns, max_values, count_out, sizes_out, is_beyond, all_ones};

use crate::Sheet;

// A set of values is a number of so many bits, 2 to the power of WORD_POWER.
const WORD_POWER: u8 = 4;

const WORD_BITS: u8 = 1 << WORD_POWER;

// 2 to the power of a size, as far as the limit `most` on it goes.
fn power(k: u8, most: u8) -> u8
    requires { most ≤ 7 }
    ensures { (result ≡ min (2 ^ most) (2 ^ k)) × (result ≤ 2 ^ most) × (k ≤ most → result ≡ 2 ^ k) }
{
    if k < most { 1 << k } else { 1 << most }
}

// The number of patterns of n inputs, as far as a sheet has room for them.
pub fn patterns_of(n: u8) -> u8
    ensures { (result ≡ min max_patterns (2 ^ n)) × (result ≤ max_patterns) × (n ≤ max_inputs → result ≡ 2 ^ n) }
{
    power(n, Sheet::MAX_INPUTS)
}

// The number of values of m wires, likewise.
pub fn values_of(m: u8) -> u8
    ensures { (result ≡ min max_values (2 ^ m)) × (result ≤ max_values) × (m ≤ max_wires → result ≡ 2 ^ m) }
{
    power(m, Sheet::MAX_WIRES)
}

// 2 to the k ones: the set of all values of k wires, as far as a word has room.
pub fn all_ones(k: u8) -> u16
    ensures { result ≡ all_ones k }
{
    ((1u32 << power(k, WORD_POWER)) - 1) as u16
}

// x needs more than k bits.
pub fn beyond(k: u8, x: u16) -> bool
    ensures { result ≡ is_beyond k x }
{
    k < WORD_BITS && 1 <= x >> k
}

// A set with a value that k wires do not have.
pub fn bits_past(k: u8, x: u16) -> bool
    ensures { result ≡ is_beyond (2 ^ k) x }
{
    beyond(power(k, WORD_POWER), x)
}

// A count outside 1 to most.
pub fn count_out(x: u8, most: u8) -> bool
    ensures { result ≡ count_out x most }
{
    x == 0 || most < x
}

// Too few or too many inputs or wires, with at most so many inputs.
pub fn sizes_out(most: u8, n: u8, m: u8) -> bool
    ensures { result ≡ sizes_out most n m }
{
    count_out(n, most) || count_out(m, Sheet::MAX_WIRES)
}
