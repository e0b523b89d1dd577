// What every format shares: refusals, and total access to bytes. What can be refused is a `Result` with a refusal for its error.
#![tactic(auto)]

ghost use Rattle.std.specs.Prelude.{◌≡◌, get_or, set};
ghost use Rattle.base.specs.Refusals.{refusal_at};

// A refusal: document 01's number, and the place that it names. A number and no enum, since `Refusal::at` answers for every number and the C interface hands them on.
#[derive(Clone, Copy)]
pub struct Refusal {
    pub number: u8,
    pub place: usize,
}

impl Refusal {
    pub const CUT_SHORT: u8 = 1;

    pub const UNKNOWN: u8 = 2;

    pub const OUT_OF_RANGE: u8 = 3;

    pub const TRAILING: u8 = 4;

    pub const OUT_OF_TURN: u8 = 5;

    pub const NO_SIGNAL: u8 = 6;

    pub const REPEATED: u8 = 7;

    pub const TOO_MANY: u8 = 8;

    pub const MISSING_ROW: u8 = 9;

    pub const EMPTY: u8 = 10;

    pub const NOT_ASCENDING: u8 = 11;

    pub const SHORT_BUFFER: u8 = 12;

    pub const SIZES_DIFFER: u8 = 13;

    pub const TOO_LONG: u8 = 14;

    pub const TOO_WIDE: u8 = 15;

    pub fn at(number: u8, place: usize) -> Self
        ensures { result ≡ refusal_at number place }
    {
        Refusal { number, place }
    }
}

// What stands at a place, or another value past the end.
pub fn entry_or<T: Copy>(entries: &[T], at: usize, other: T) -> T
    ensures { result ≡ get_or entries.now at other }
{
    if at < entries.len() {
        entries[at]
    } else {
        other
    }
}

// The byte at a place, or 0 past the end.
pub fn byte_at(s: &[u8], at: usize) -> u8
    ensures { result ≡ get_or s.now at 0 }
{
    entry_or(s, at, 0)
}

// Puts a byte at a place; past the end it changes nothing.
pub fn put(s: &mut [u8], at: usize, b: u8)
    ensures { s.new ≡ set s.old at b }
{
    if at < s.len() {
        s[at] = b;
    }
}
