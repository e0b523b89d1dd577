// How many bytes a copy has, told without writing it.
// Inner functions: `write_copy` hands on the sheet that it is given.
ghost use Rattle.std.specs.Prelude.{◌≡◌, ◌≤◌, length};
ghost use Rattle.reader.specs.Inner.WasRead.{WasRead};
ghost use Rattle.writer.specs.Inner.Widths.{longest_command};
ghost use Rattle.clean.specs.Copy.{copy_bytes, mark_length, limit_length, longest_copy};

use crate::sections::permits_all;
use sheet::Sheet;
use sheet::limits::patterns_of;
use writer::{
    DONT_CARE_WIDTH, END_WIDTH, GATE_WIDTH, LIMIT_WIDTH, OUTPUT_WIDTH, ROW_WIDTH, SIZES_WIDTH,
};

// No copy has more bytes: every pattern with a row and a limit, and all gates and outputs.
pub const LONGEST_COPY: usize = SIZES_WIDTH
    + (ROW_WIDTH + LIMIT_WIDTH) * Sheet::MAX_PATTERNS
    + GATE_WIDTH * (Sheet::MAX_GATES as usize)
    + OUTPUT_WIDTH * (Sheet::MAX_OUTPUTS as usize)
    + END_WIDTH;

// The bytes that a pattern's mark takes.
fn mark_length(mark: u8) -> usize
    ensures { (result ≡ mark_length mark) × (result ≤ longest_command) }
{
    if mark == Sheet::DONT_CARE {
        DONT_CARE_WIDTH
    } else {
        ROW_WIDTH
    }
}

// The bytes that a pattern's limit takes: none where its set is all values.
fn limit_length(m: u8, set: u16) -> usize
    ensures { (result ≡ limit_length m set) × (result ≤ longest_command) }
{
    if permits_all(m, set) { 0 } else { LIMIT_WIDTH }
}

// The length of a sheet's copy.
pub fn copy_length(sheet: Sheet) -> usize
    requires { WasRead sheet }
    ensures { (result ≡ length (copy_bytes sheet)) × (result ≤ longest_copy) }
{
    let m = sheet.m;
    let marks = sheet.marks;
    let limits = sheet.limits;
    let mut length = SIZES_WIDTH
        + GATE_WIDTH * (sheet.gate_count as usize)
        + OUTPUT_WIDTH * (sheet.output_count as usize)
        + END_WIDTH;
    for p in 0..patterns_of(sheet.n) as usize {
        length += mark_length(marks[p]) + limit_length(m, limits[p]);
    }
    length
}
