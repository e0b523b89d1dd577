// The relation of a sheet that was read, pattern by pattern.
ghost use Rattle.std.specs.Prelude.{◌≡◌, ◌<◌, ◌^◌};
ghost use Rattle.table.specs.Bits.{of_bits, is_one};
ghost use Rattle.sheet.specs.Limits.{max_values};
ghost use Rattle.reader.specs.Inner.WasRead.{WasRead};
ghost use Rattle.unit.specs.Inner.Forming.{OutputWords, same_bit, same_outputs};
ghost use Rattle.unit.specs.Formed.{set_on, relation_in};

use crate::gates::{ALL_VALUES, output_words};
use relation::Relation;
use sheet::Sheet;
use sheet::limits::patterns_of;

// The values for which one signal is what it is for value u: of its word the ones or, where it is 0 for u, the zeros. `alike` has a value that there is.
fn alike_on(word: u16, u: u8) -> u16
    requires { u < max_values }
    ensures { result ≡ of_bits max_values (λ v. is_one (same_bit word u v)) }
{
    let zero = 1 - (word >> u) % 2;
    word ^ (zero * ALL_VALUES)
}

// The values for which every output is what it is for value u. `set_on` asks for a present value, which a sheet that was read has in range.
fn alike(outputs: [u16; Sheet::MAX_OUTPUTS as usize], u: u8) -> u16
    requires { u < max_values }
    ensures { result ≡ of_bits max_values (λ v. is_one (same_outputs outputs u v)) }
{
    let mut found = ALL_VALUES;
    for i in 0..Sheet::MAX_OUTPUTS {
        found &= alike_on(outputs[i as usize], u);
    }
    found
}

// The values that pattern p may have: the permitted ones and, unless it is impossible, of those only the ones that are alike to its present value.
// `relation_of` goes through the patterns that there are.
fn set_on(sheet: Sheet, outputs: [u16; Sheet::MAX_OUTPUTS as usize], p: u8) -> u16
    requires { WasRead sheet × (p < 2 ^ sheet.n) }
    ensures { (h : WasRead sheet) → OutputWords h.commands outputs → result ≡ set_on h.commands p }
{
    let at = p as usize;
    let allowed = sheet.limits[at];
    if sheet.marks[at] != Sheet::ROW {
        return allowed;
    }
    allowed & alike(outputs, sheet.values[at])
}

// The relation, with empty sets past the last pattern. `form` has the sheet from its reader.
pub(crate) fn relation_of(sheet: Sheet) -> Relation
    requires { WasRead sheet }
    ensures { (h : WasRead sheet) → result ≡ relation_in h.commands }
{
    let n = sheet.n;
    let m = sheet.m;
    let outputs = output_words(sheet);
    let mut sets = [0; Sheet::MAX_PATTERNS];
    for p in 0..patterns_of(n) {
        sets[p as usize] = set_on(sheet, outputs, p);
    }
    Relation { n, m, sets }
}
