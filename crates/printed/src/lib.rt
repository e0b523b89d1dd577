// What the program prints, as bytes at the start of a lent buffer: a function for each word, each with the length of what it put.
#![tactic(auto)]

ghost use Rattle.std.specs.Prelude.{◌≡◌};
ghost use Rattle.base.specs.Refusals.{refusal_at, too_long};
ghost use Rattle.report.specs.Lines.{Printed, longest_report, longest_copy_line};
ghost use Rattle.reader.specs.Reading.{reading_of};
ghost use Rattle.joined.specs.Cases.{joint_case};
ghost use Rattle.printed.specs.Printed.{longest_sheet, printed_of, audit_printed_of, clean_printed_of, before_too_long, joint_printed_of};

use base::Refusal;
use clean::LONGEST_COPY;
use diagram::LONGEST_WRITTEN;
use joined::{JointRefusal, quote_joined};
use nodes::BoardKind;
use quote::AuditRefusal;

// The longest sheet that is taken, and the budget of a quote.
pub const LONGEST_SHEET: usize = 4096;

const BUDGET: u32 = 10000;

// The refusal of a sheet that is too long: nothing of such a sheet is read, and no stage beside it.
fn too_long() -> Refusal
    ensures { result ≡ refusal_at too_long longest_sheet }
{
    Refusal::at(Refusal::TOO_LONG, LONGEST_SHEET)
}

// The lines for a sheet, on either board.
pub fn quote_reply(kind: BoardKind, sheet: &[u8], out: &mut [u8]) -> usize
    ensures { Printed longest_report (printed_of kind sheet.now) out.old out.new result }
{
    let mut stage = [0u8; LONGEST_WRITTEN];
    if LONGEST_SHEET < sheet.len() {
        return report::report(Err(too_long()), &stage, out);
    }
    let quoted = quote::quote_on(kind, sheet, BUDGET, &mut stage);
    report::report(quoted, &stage, out)
}

// The line for a sheet and a stage, on either board.
pub fn audit_reply(kind: BoardKind, sheet: &[u8], stage: &[u8], out: &mut [u8]) -> usize
    ensures { Printed longest_report (audit_printed_of kind sheet.now stage.now) out.old out.new result }
{
    if LONGEST_SHEET < sheet.len() {
        return report::report_audit(Err(AuditRefusal::Sheet(too_long())), out);
    }
    let audited = quote::audit_on(kind, sheet, stage);
    report::report_audit(audited, out)
}

// The line for a sheet that is to be cleaned (document 02, E1).
pub fn clean_reply(sheet: &[u8], out: &mut [u8]) -> usize
    ensures { Printed longest_copy_line (clean_printed_of sheet.now) out.old out.new result }
{
    let mut copy = [0u8; LONGEST_COPY];
    if LONGEST_SHEET < sheet.len() {
        return report::report_copy(Err(too_long()), &copy, out);
    }
    let written = clean::clean(sheet, &mut copy);
    report::report_copy(written, &copy, out)
}

// What is refused of two sheets where the second is too long: what reading refuses of the first comes before.
fn second_too_long(first: &[u8]) -> JointRefusal
    ensures { joint_case result ≡ before_too_long (reading_of first.now) }
{
    match unit::relate(first) {
        Ok(_) => JointRefusal::Second(too_long()),
        Err(refusal) => JointRefusal::First(refusal),
    }
}

// The lines for two sheets that are to have one stage (document 02, E6).
pub fn joined_reply(first: &[u8], second: &[u8], out: &mut [u8]) -> usize
    ensures { Printed longest_report (joint_printed_of first.now second.now) out.old out.new result }
{
    let mut written = [0u8; LONGEST_WRITTEN];
    if LONGEST_SHEET < first.len() {
        return report::report_joint(Err(JointRefusal::First(too_long())), &written, out);
    }
    if LONGEST_SHEET < second.len() {
        return report::report_joint(Err(second_too_long(first)), &written, out);
    }
    let quoted = quote_joined(first, second, BUDGET, &mut written);
    report::report_joint(quoted, &written, out)
}
