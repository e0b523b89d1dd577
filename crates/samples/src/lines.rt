// The parts of which the reply lines are made, beside those of the report, put onto a page.
// Inner functions: the replies meet what they require, bounds on places that are there for the sums alone.
ghost use Rattle.std.specs.Prelude.{◌≡◌, drop};
ghost use Rattle.text.specs.Inner.Page.{Adds, HasRoom};
ghost use Rattle.samples.specs.Inner.Lines.{all_filled, kept_text, spaced_text, tables_text};
ghost use Rattle.samples.specs.Inner.Lengths.{longest_kept, longest_spaced, longest_tables};

use sheet::Sheet;
use text::Page;

// What a lent buffer is filled with before a call.
pub const FILL: u8 = 0xEE;

// A number with a space behind it.
pub fn put_spaced(page: &mut Page, x: u64)
    requires { HasRoom longest_spaced page.old }
    ensures { Adds longest_spaced (spaced_text x) page.old page.new }
{
    page.put_decimal(x);
    page.put_byte(b' ');
}

// The four tables, each with a space behind it.
pub fn put_tables(page: &mut Page, tables: [u64; Sheet::WIRES])
    requires { HasRoom longest_tables page.old }
    ensures { Adds longest_tables (tables_text tables) page.old page.new }
{
    for x in tables {
        put_spaced(page, x);
    }
}

// Whether every byte is as it was filled.
fn is_filled(bytes: &[u8]) -> bool
    ensures { result ≡ all_filled bytes.now }
{
    bytes.iter().all(|b| *b == FILL)
}

// The end of the line of a call with a buffer: a plus where every byte from a place on is as it was lent, else a minus.
pub fn put_kept(page: &mut Page, buffer: &[u8], from: usize)
    requires { HasRoom longest_kept page.old }
    ensures { Adds longest_kept (kept_text buffer.now from) page.old page.new }
{
    let is_kept = is_filled(&buffer[from.min(buffer.len())..]);
    page.put_text(if is_kept { b" +\n" } else { b" -\n" });
}
