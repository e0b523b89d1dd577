// The second stage of a unit: its gates, its outputs for all wire values, and the relation that its sheet leaves to the first stage.
#![tactic(auto)]

ghost use Rattle.std.specs.Prelude.{◌≡◌};
ghost use Rattle.unit.specs.Cases.{formed_reply};
ghost use Rattle.unit.specs.Formed.{related_of, formed_of};

use crate::sets::relation_of;
use base::Refusal;
use relation::Relation;
use sheet::Sheet;

mod gates; // gates.rt: signals and outputs, for all wire values at once
mod sets; // sets.rt: the relation, pattern by pattern

// Reads a whole sheet and hands back its relation, whether or not every pattern has a value; or the refusal of the reading (document 02, E6).
pub fn relate(s: &[u8]) -> Result<Relation, Refusal>
    ensures { formed_reply result ≡ related_of s.now }
{
    let sheet = reader::read_sheet(s)?;
    Ok(relation_of(sheet))
}

// Reads a whole sheet and forms its relation: any refusal of the reading, else 10 or the relation. Its inputs are those of a sheet.
pub fn form(s: &[u8]) -> Result<Relation, Refusal>
    ensures { formed_reply result ≡ formed_of s.now }
{
    let relation = relate(s)?;
    relation.check(Sheet::MAX_INPUTS)?;
    Ok(relation)
}
