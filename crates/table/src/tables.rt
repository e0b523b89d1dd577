// Tables of up to six inputs as numbers of 64 bits: the one that is 1 on every pattern, and whether a number is a table.
ghost use Rattle.std.specs.Prelude.{◌≡◌, ◌≤◌, ◌^◌};
ghost use Rattle.sheet.specs.Limits.{max_inputs, is_beyond};
ghost use Rattle.table.specs.Cells.{full};

use sheet::Sheet;
use sheet::limits::patterns_of;

// A table is a number of so many bits, one for each pattern that there can be.
const TABLE_BITS: u8 = Sheet::MAX_PATTERNS as u8;

// The table of n inputs that is 1 on every pattern. Inner: its callers have tested the size.
pub fn full_table(n: u8) -> u64
    requires { n ≤ max_inputs }
    ensures { result ≡ full n }
{
    u64::MAX >> (TABLE_BITS - patterns_of(n))
}

// t has bits past the patterns of n inputs.
pub fn table_out(n: u8, t: u64) -> bool
    ensures { result ≡ is_beyond (2 ^ n) t }
{
    let bits = patterns_of(n);
    bits < TABLE_BITS && 1 <= t >> bits
}
