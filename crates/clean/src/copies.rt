// The copy of a sheet that was read, at the start of a lent buffer.
// Inner function: `clean` has the sheet from its reader.
ghost use Rattle.std.specs.Prelude.{◌≡◌, length};
ghost use Rattle.base.specs.Buffers.{fitted, buffer_with};
ghost use Rattle.base.specs.Cases.{written_case};
ghost use Rattle.reader.specs.Inner.WasRead.{WasRead};
ghost use Rattle.clean.specs.Copy.{copy_bytes};

use crate::lengths::copy_length;
use crate::sections::put_copy;
use base::Refusal;
use sheet::Sheet;

// Writes the copy, unless the buffer is too short.
pub fn write_copy(sheet: Sheet, buffer: &mut [u8]) -> Result<usize, Refusal>
    requires { WasRead sheet }
    ensures { (written_case result ≡ fitted (copy_bytes sheet) (length buffer.old))
        × (buffer.new ≡ buffer_with (copy_bytes sheet) buffer.old (fitted (copy_bytes sheet) (length buffer.old))) }
{
    let length = copy_length(sheet);
    if buffer.len() < length {
        return Err(Refusal::at(Refusal::SHORT_BUFFER, length));
    }
    put_copy(buffer, sheet);
    Ok(length)
}
