// The bytes of a stage, stored part by part at the start of a buffer.
// Inner functions: `write_on` has tested the buffer before it calls them.
ghost use Rattle.std.specs.Prelude.{◌≡◌};
ghost use Rattle.std.proofs.lemmas.List.Edits.{sets};
ghost use Rattle.stage.specs.Bytes.{wires_bytes};
ghost use Rattle.stage.specs.Written.{stage_drawn, stage_of};
ghost use Rattle.diagram.specs.Forms.{form_of};
ghost use Rattle.base.specs.Inner.Put.{Put};

use crate::common::put_bytes;
use crate::tables::Stage;
use crate::wires::put_wire;

// Writes the wires of a stage from place 3 on, and hands back the place after them.
fn put_wires(buffer: &mut [u8], stage: &Stage) -> usize
    ensures { Put buffer.old 3 (wires_bytes (form_of stage.now.kind) 0 (stage_drawn (form_of stage.now.kind) stage.now.n stage.now.m stage.now.tables)) buffer.new result }
{
    let mut at: usize = 3;
    for j in 0..stage.m {
        let table = stage.tables[j as usize];
        at = put_wire(stage.kind, buffer, at, stage.n, j, table);
    }
    at
}

// Writes a stage at the start of a buffer that is long enough.
pub fn put_sheet(buffer: &mut [u8], stage: &Stage)
    ensures { buffer.new ≡ sets buffer.old 0 (stage_of (form_of stage.now.kind) stage.now.n stage.now.m stage.now.tables) }
{
    put_bytes(buffer, 0, &[0x20, stage.n, stage.m]);
    let at = put_wires(buffer, stage);
    put_bytes(buffer, at, &[0x2F]);
}
