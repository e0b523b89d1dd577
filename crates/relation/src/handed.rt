// The lowest pattern at which a relation handed over as numbers is refused. Sets past the last pattern are not read.
// Two loops and no one function over the test: with a test passed in, each caller would have to state again what it means, and both loops are as short.
// Inner functions: the test of a relation handed in has tested the sizes before it calls them.
ghost use Rattle.std.specs.Prelude.{◌≡◌, ◌≤◌, ◌^◌, eqb, get_or};
ghost use Rattle.sheet.specs.Limits.{max_inputs, max_wires};
ghost use Rattle.base.specs.Inner.Lowest.{first_below};
ghost use Rattle.sheet.specs.Limits.{is_beyond};

use sheet::Sheet;
use sheet::limits::{patterns_of, values_of};

// The first set that has a value of more than m wires.
pub fn wide_pattern(n: u8, m: u8, sets: [u16; Sheet::MAX_PATTERNS]) -> Option<u8>
    requires { (n ≤ max_inputs) × (m ≤ max_wires) }
    ensures { result ≡ first_below (2 ^ n) (λ p. is_beyond (2 ^ m) (get_or sets p 0)) }
{
    let limit: u32 = 1 << values_of(m);
    for p in 0..patterns_of(n) {
        if limit <= sets[p as usize] as u32 {
            return Some(p);
        }
    }
    None
}

// The first set that has no value at all.
pub fn empty_pattern(n: u8, sets: [u16; Sheet::MAX_PATTERNS]) -> Option<u8>
    requires { n ≤ max_inputs }
    ensures { result ≡ first_below (2 ^ n) (λ p. eqb (get_or sets p 0) 0) }
{
    for p in 0..patterns_of(n) {
        if sets[p as usize] == 0 {
            return Some(p);
        }
    }
    None
}
