// What trees and diagrams have in common: the halves of a table, and runs of bytes.
// Inner functions: their callers write within the longest stage.
ghost use Rattle.std.specs.Prelude.{◌≡◌, ◌+◌, ◌<◌, ◌≤◌, length};
ghost use Rattle.sheet.specs.Limits.{max_inputs};
ghost use Rattle.table.specs.Cells.{low, high};
ghost use Rattle.diagram.specs.Bytes.{longest_written};
ghost use Rattle.base.specs.Inner.Put.{Put};

use base::put;
use sheet::limits::patterns_of;

// The halves of a table of one input more than v, by its first input: where that is 0, and where it is 1.
pub fn halves(v: u8, t: u64) -> (u64, u64)
    requires { v < max_inputs }
    ensures { (result.0 ≡ low v t) × (result.1 ≡ high v t) }
{
    let half = 1u64 << patterns_of(v);
    (t % half, t / half)
}

// Writes bytes one after the other, and hands back the place after them.
// The bound on the place is only there for the sums: no stage of either board is longer. Buffer and place stay two parameters, here and in all that writes: as
// one struct each contract would have to say besides that the buffer is still the one that was lent.
pub fn put_bytes(buffer: &mut [u8], at: usize, bytes: &[u8]) -> usize
    requires { at + length bytes.now ≤ longest_written }
    ensures { Put buffer.old at bytes.now buffer.new result }
{
    let mut next = at;
    for b in bytes {
        put(buffer, next, *b);
        next += 1;
    }
    next
}
