// A reply as numbers: each call leaves the six numbers of a reply, and hands back the number of its refusal, or 0.
ghost use Rattle.std.specs.Prelude.{◌≡◌, Ok};
ghost use Rattle.base.specs.Cases.{accepting, refusing, written_case};
ghost use Rattle.search.specs.Cases.{mark_case};
ghost use Rattle.quote.specs.Cases.{audited_case, no_quote, quote_reply};
ghost use Rattle.joined.specs.Cases.{joint_reply};
ghost use Rattle.capi.specs.Numbers.{audit_numbers, copy_numbers, quote_numbers};

use crate::REPLY_NUMBERS;
use base::Refusal;
use joined::JointRefusal;
use quote::{AuditRefusal, Audited, Quoted};
use search::Mark;

// Outcomes of a search and of a quote, of an audit, of a copy, and of a refusal; of two things handed in, the stage and the second sheet have their own.
const BEST: u64 = 0;

const STOPPED: u64 = 1;

const FITS: u64 = 0;

const DIFFERS: u64 = 1;

const WRITTEN: u64 = 0;

pub const REFUSED: u64 = 2;

const STAGE_REFUSED: u64 = 3;

const SECOND_REFUSED: u64 = 3;

// A refusal: all numbers but its outcome and its place are 0.
pub fn tell_refusal(outcome: u64, refusal: Refusal, reply: &mut [u64; REPLY_NUMBERS]) -> u32
    ensures number { result ≡ refusal.number }
    ensures numbers { reply.new ≡ quote_numbers (no_quote (refusing outcome refusal)) }
{
    *reply = [outcome, 0, 0, 0, 0, refusal.place as u64];
    u32::from(refusal.number)
}

// The outcome of a mark.
pub fn outcome_of(mark: Mark) -> u64
    ensures { result ≡ (mark_case mark).outcome }
{
    match mark {
        Mark::Best => BEST,
        Mark::Stopped => STOPPED,
    }
}

// A quote with a stage.
fn tell_quoted(quoted: Quoted, reply: &mut [u64; REPLY_NUMBERS]) -> u32
    ensures number { result ≡ (quote_reply (Ok quoted)).mark.number }
    ensures numbers { reply.new ≡ quote_numbers (quote_reply (Ok quoted)) }
{
    *reply = [
        outcome_of(quoted.mark),
        quoted.cells,
        quoted.floor,
        quoted.visits,
        quoted.length as u64,
        0,
    ];
    0
}

// The reply of a quote.
pub fn quote_told(q: Result<Quoted, Refusal>, reply: &mut [u64; REPLY_NUMBERS]) -> u32
    ensures number { result ≡ (quote_reply q).mark.number }
    ensures numbers { reply.new ≡ quote_numbers (quote_reply q) }
{
    match q {
        Ok(quoted) => tell_quoted(quoted, reply),
        Err(refusal) => tell_refusal(REFUSED, refusal, reply),
    }
}

// The reply of a joint quote.
pub fn joint_told(q: Result<Quoted, JointRefusal>, reply: &mut [u64; REPLY_NUMBERS]) -> u32
    ensures number { result ≡ (joint_reply q).mark.number }
    ensures numbers { reply.new ≡ quote_numbers (joint_reply q) }
{
    match q {
        Ok(joint) => tell_quoted(joint, reply),
        Err(JointRefusal::First(refusal)) => tell_refusal(REFUSED, refusal, reply),
        Err(JointRefusal::Second(refusal)) => tell_refusal(SECOND_REFUSED, refusal, reply),
    }
}

// A stage that was judged, with its cells.
fn tell_judged(outcome: u64, cells: u32, reply: &mut [u64; REPLY_NUMBERS]) -> u32
    ensures number { result ≡ 0 }
    ensures numbers { reply.new ≡ audit_numbers (accepting outcome cells) }
{
    *reply = [outcome, u64::from(cells), 0, 0, 0, 0];
    0
}

// The reply of an audit.
pub fn audit_told(audited: Result<Audited, AuditRefusal>, reply: &mut [u64; REPLY_NUMBERS]) -> u32
    ensures number { result ≡ (audited_case audited).number }
    ensures numbers { reply.new ≡ audit_numbers (audited_case audited) }
{
    match audited {
        Ok(Audited::Fits(cells)) => tell_judged(FITS, cells, reply),
        Ok(Audited::Differs(cells)) => tell_judged(DIFFERS, cells, reply),
        Err(AuditRefusal::Sheet(refusal)) => tell_refusal(REFUSED, refusal, reply),
        Err(AuditRefusal::Stage(refusal)) => tell_refusal(STAGE_REFUSED, refusal, reply),
    }
}

// The reply of a call that writes a copy.
pub fn written_told(written: Result<usize, Refusal>, reply: &mut [u64; REPLY_NUMBERS]) -> u32
    ensures number { result ≡ (written_case written).number }
    ensures numbers { reply.new ≡ copy_numbers (written_case written) }
{
    match written {
        Ok(length) => {
            *reply = [WRITTEN, 0, 0, 0, length as u64, 0];
            0
        }
        Err(refused) => tell_refusal(REFUSED, refused, reply),
    }
}
