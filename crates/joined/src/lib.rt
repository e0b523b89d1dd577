// One stage for two units: the quote over what two sheets both allow (document 02, E6).
#![tactic(auto)]

ghost use Rattle.std.specs.Prelude.{◌≡◌, length};
ghost use Rattle.quote.specs.Cases.{quote_reply};
ghost use Rattle.joined.specs.Cases.{joint_reply, unnamed};
ghost use Rattle.joined.specs.Joint.{quoted_as_second, joint_quoted, joint_buffer};
ghost use Rattle.joined.specs.Promised.{JointPromised};
ghost use Rattle.joined.specs.Inner.Both.{both_quoted, both_buffer};

use base::Refusal;
use nodes::BoardKind;
use quote::Quoted;
use quote::quotes::quote_relation;
use relation::Relation;

// A refusal names the sheet; what both together are refused for counts as the second's.
#[derive(Clone, Copy)]
pub enum JointRefusal {
    First(Refusal),
    Second(Refusal),
}

// The same reply with no sheet named, as that of a quote.
pub fn unnamed(reply: Result<Quoted, JointRefusal>) -> Result<Quoted, Refusal>
    ensures { quote_reply result ≡ unnamed (joint_reply reply) }
{
    match reply {
        Ok(quoted) => Ok(quoted),
        Err(JointRefusal::First(refusal)) => Err(refusal),
        Err(JointRefusal::Second(refusal)) => Err(refusal),
    }
}

// The quote of what two relations both allow, or 13 where their sizes differ.
fn quote_both(
    first: Relation,
    second: Relation,
    budget: u32,
    buffer: &mut [u8],
) -> Result<Quoted, Refusal>
    ensures { (quoted_as_second (quote_reply result) ≡ both_quoted first second budget (length buffer.old))
        × (buffer.new ≡ both_buffer first second budget buffer.old) }
{
    if first.n != second.n || first.m != second.m {
        return Err(Refusal::at(Refusal::SIZES_DIFFER, 0));
    }
    let both = first.join(second);
    quote_relation(BoardKind::Tree, both, budget, buffer)
}

// The smallest stage that serves two units, written at the start of the lent buffer, or the best found under the budget; or the refusal, which writes nothing.
// The first sheet's refusals come before the second's, and 13, 10 and 12 after both; a sheet whose own sets leave a pattern no value is refused with 10 then.
pub fn quote_joined(
    first: &[u8],
    second: &[u8],
    budget: u32,
    buffer: &mut [u8],
) -> Result<Quoted, JointRefusal>
    ensures reply { joint_reply result ≡ joint_quoted first.now second.now budget (length buffer.old) }
    ensures bytes { buffer.new ≡ joint_buffer first.now second.now budget buffer.old }
    ensures promise { JointPromised first.now second.now budget (joint_reply result) buffer.new }
{
    let one = unit::relate(first).map_err(JointRefusal::First)?;
    let two = unit::relate(second).map_err(JointRefusal::Second)?;
    quote_both(one, two, budget, buffer).map_err(JointRefusal::Second)
}
