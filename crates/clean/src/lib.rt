// Clean copies of unit sheets: what a sheet says, written in one order.
#![tactic(auto)]

ghost use Rattle.std.specs.Prelude.{◌≡◌, length};
ghost use Rattle.base.specs.Cases.{written_case};
ghost use Rattle.clean.specs.Cleaned.{cleaned_of, buffer_cleaned};
ghost use Rattle.clean.specs.CleanCopy.{CleanPromise};

use base::Refusal;
use copies::write_copy;
use reader::read_sheet;

mod copies; // the copy of a sheet that was read, written unless the buffer is too short
mod lengths; // how many bytes a copy has
mod sections; // the commands of a copy, section by section

pub use lengths::LONGEST_COPY;

// Reads a sheet and writes its clean copy to the front of the buffer; what is behind the copy is left alone, and a refusal leaves every byte.
pub fn clean(sheet: &[u8], buffer: &mut [u8]) -> Result<usize, Refusal>
    ensures reply { written_case result ≡ cleaned_of sheet.now (length buffer.old) }
    ensures bytes { buffer.new ≡ buffer_cleaned sheet.now buffer.old }
    ensures copy { CleanPromise sheet.now (written_case result) buffer.new }
{
    let gathered = read_sheet(sheet)?;
    write_copy(gathered, buffer)
}
