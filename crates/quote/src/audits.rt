// The audit: whether a stage keeps to a sheet.
ghost use Rattle.std.specs.Prelude.{◌≡◌, ◌≤◌, ◌^◌};
ghost use Rattle.sheet.specs.Limits.{max_inputs, max_wires};
ghost use Rattle.table.specs.Bits.{all};
ghost use Rattle.relation.specs.Source.{value};
ghost use Rattle.relation.specs.Tests.{of_sets};
ghost use Rattle.table.specs.Cells.{wires};
ghost use Rattle.stage.specs.Read.{read_sheet};
ghost use Rattle.diagram.specs.Forms.{form_of, drawing_of};
ghost use Rattle.quote.specs.Cases.{audited_case};
ghost use Rattle.quote.specs.Audit.{audited_stage};

use crate::{AuditRefusal, Audited};
use base::Refusal;
use nodes::BoardKind;
use relation::Relation;
use relation::patterns::value_of;
use relation::values::contains;
use sheet::Sheet;
use sheet::limits::patterns_of;
use stage_reader::read_on;

// Whether the value that the tables drive lies in the set of every pattern.
fn allowed_everywhere(n: u8, sets: [u16; Sheet::MAX_PATTERNS], tables: [u64; Sheet::WIRES]) -> bool
    requires { n ≤ max_inputs }
    ensures { result ≡ all (2 ^ n) (λ p. of_sets sets p (value max_wires (wires tables) p)) }
{
    let count = patterns_of(n);
    for p in 0..count {
        if !contains(sets[p as usize], value_of(tables, p)) {
            return false;
        }
    }
    true
}

// The audit of a stage sheet against a relation. Sizes and values are looked at only where the stage sheet can be read.
pub fn audit_stage(kind: BoardKind, relation: Relation, s: &[u8]) -> Result<Audited, AuditRefusal>
    ensures { audited_case result ≡ audited_stage (drawing_of kind) relation (read_sheet (form_of kind) s.now) }
{
    let reply = read_on(kind, s);
    let Ok(read) = reply else {
        return Err(AuditRefusal::Stage(reply.unwrap_err()));
    };
    if read.n != relation.n || read.m != relation.m {
        return Err(AuditRefusal::Stage(Refusal::at(Refusal::SIZES_DIFFER, 0)));
    }
    if allowed_everywhere(read.n, relation.sets, read.tables) {
        Ok(Audited::Fits(read.cells as u32))
    } else {
        Ok(Audited::Differs(read.cells as u32))
    }
}
