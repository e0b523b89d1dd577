// The input: records that follow each other with nothing between. Each begins with a letter; numbers of more than one byte come low byte first.
// Proved: each number, part and length is the one that the bytes say.
// Inner functions: the main loop and the replies meet the bounds on places, which are there for the sums alone.
ghost use Rattle.std.specs.Prelude.{◌≡◌, ◌+◌, ◌*◌, ◌≤◌};
ghost use Rattle.sheet.specs.Limits.{max_patterns, max_wires};
ghost use Rattle.base.specs.Inner.Put.{last_place};
ghost use Rattle.base.specs.Tabulate.{tabulate};
ghost use Rattle.samples.specs.Inner.Records.{any_record_length, byte_at, call_of, eight_at, four_at, part_of, record_length, sets_at, tables_at, two_at};
ghost use Rattle.samples.specs.Inner.Lengths.{longest_any_record, longest_part, longest_record};

use base::byte_at;
use sheet::Sheet;
use std::array;

// The bytes of a record that has no part of its own length: n, m, a budget and the sets of a relation; n, m, a buffer's length and the tables of a stage.
const SEARCH_RECORD: usize = 7 + 2 * Sheet::MAX_PATTERNS;

const WRITE_RECORD: usize = 5 + 8 * Sheet::WIRES;

// The bytes from a place on; those past the end count as 0.
fn bytes_at<const N: usize>(s: &[u8], at: usize) -> [u8; N]
    requires { at + N ≤ last_place }
    ensures { result ≡ tabulate N (λ i. byte_at s.now (at + i)) }
{
    array::from_fn(|i| byte_at(s, at + i))
}

// The number of two bytes at a place.
pub fn u16_at(s: &[u8], at: usize) -> u16
    requires { at + 2 ≤ last_place }
    ensures { result ≡ two_at s.now at }
{
    u16::from_le_bytes(bytes_at(s, at))
}

// The number of four bytes at a place.
pub fn u32_at(s: &[u8], at: usize) -> u32
    requires { at + 4 ≤ last_place }
    ensures { result ≡ four_at s.now at }
{
    u32::from_le_bytes(bytes_at(s, at))
}

// The number of eight bytes at a place.
pub fn u64_at(s: &[u8], at: usize) -> u64
    requires { at + 8 ≤ last_place }
    ensures { result ≡ eight_at s.now at }
{
    u64::from_le_bytes(bytes_at(s, at))
}

// A length of two bytes at a place.
pub fn length_at(s: &[u8], at: usize) -> usize
    requires { at + 2 ≤ last_place }
    ensures { (result ≡ two_at s.now at) × (result ≤ longest_part) }
{
    usize::from(u16_at(s, at))
}

// The sets of a relation from a place on.
pub fn sets_at(s: &[u8], from: usize) -> [u16; Sheet::MAX_PATTERNS]
    requires { from + 2 * max_patterns ≤ last_place }
    ensures { result ≡ sets_at s.now from }
{
    array::from_fn(|i| u16_at(s, from + 2 * i))
}

// The tables of a stage from a place on.
pub fn tables_at(s: &[u8], from: usize) -> [u64; Sheet::WIRES]
    requires { from + 8 * max_wires ≤ last_place }
    ensures { result ≡ tables_at s.now from }
{
    array::from_fn(|i| u64_at(s, from + 8 * i))
}

// `count` bytes from a place on, or none where the bytes end before.
pub fn part(s: &[u8], from: usize, count: usize) -> &[u8]
    requires { from + count ≤ last_place }
    ensures { result.now ≡ part_of s.now from count }
{
    s.get(from..from + count).unwrap_or(&[])
}

// The call that a record is for, whichever the board: the records of the board that shares selectors have the small letters.
// The letters stand one by one, since a guard with `to_ascii_uppercase` would name all five too.
pub fn call_of(letter: u8) -> u8
    ensures { result ≡ call_of letter }
{
    match letter {
        b'q' => b'Q',
        b'a' => b'A',
        b's' => b'S',
        b'w' => b'W',
        b'r' => b'R',
        _ => letter,
    }
}

// The bytes of the record at a place. An unknown letter is a record by itself.
pub fn record_length(s: &[u8], at: usize) -> usize
    requires { at + longest_record ≤ last_place }
    ensures { (result ≡ record_length s.now at) × (1 ≤ result) × (result ≤ longest_record) }
{
    let call = call_of(byte_at(s, at));
    match call {
        b'Q' => 9 + length_at(s, at + 7),
        b'A' => 5 + length_at(s, at + 1) + length_at(s, at + 3),
        b'S' => SEARCH_RECORD,
        b'W' => WRITE_RECORD,
        b'R' => 3 + length_at(s, at + 1),
        b'C' => 5 + length_at(s, at + 3),
        _ => 1,
    }
}

// The same with the record of a joint quote, which has the letter J. `record_length` stays beside it, since its own bound is promised: none of its records is
// longer than an audit's.
pub fn any_record_length(s: &[u8], at: usize) -> usize
    requires { at + longest_any_record ≤ last_place }
    ensures { (result ≡ any_record_length s.now at) × (1 ≤ result) × (result ≤ longest_any_record) }
{
    let letter = byte_at(s, at);
    match letter {
        b'J' => 11 + length_at(s, at + 7) + length_at(s, at + 9),
        _ => record_length(s, at),
    }
}
