// What the program prints for a reply of the quote, of the joint quote, of the audit and of the clean copy, as bytes in a lent buffer. Each call puts its lines at the start of
// the buffer and hands back the length of them. Bytes that find no room are dropped, and a length above the buffer's says so; what stands behind the lines is
// left as it was.
#![tactic(auto)]

ghost use Rattle.std.specs.Prelude.{◌≤◌, length};
ghost use Rattle.base.specs.Cases.{written_case};
ghost use Rattle.quote.specs.Cases.{quote_reply, audited_case};
ghost use Rattle.joined.specs.Cases.{joint_reply};
ghost use Rattle.report.specs.Lines.{Printed, longest_report, longest_word, longest_copy_line, lines_of, refusal_line, joint_lines, audit_line, copy_line};

use base::Refusal;
use clean::LONGEST_COPY;
use diagram::LONGEST_WRITTEN;
use joined::{JointRefusal, unnamed};
use line_parts::{put_refusal_line, put_shown_line};
use lines::{put_judged, put_result};
use quote::{AuditRefusal, Audited, Quoted};
use text::{LONGEST_DECIMAL, Page};

pub mod line_parts; // what lines are made of
mod lines; // the lines

// The bytes of "cells ", " floor " and " visits ", and of " stopped" with the end of its line, the longest word.
const COUNT_NAMES: usize = 6 + 7 + 8;

const LONGEST_WORD: usize = 9;

// A byte as a pair, and what parts it from the next or ends the line.
const PAIR: usize = 3;

// The lines of a report have at most so many bytes: three numbers with their names, a word, a pair for each byte of a stage, and the end of its line.
pub const LONGEST_REPORT: usize = COUNT_NAMES
    + 3 * LONGEST_DECIMAL
    + LONGEST_WORD
    + PAIR * LONGEST_WRITTEN
    + 1;

// And the line of a copy, at most so many.
pub const LONGEST_COPY_LINE: usize = PAIR * LONGEST_COPY + 1;

// The lines for a reply of the quote and the bytes that it wrote its stage to.
pub fn report(q: Result<Quoted, Refusal>, stage: &[u8], out: &mut [u8]) -> usize
    ensures { Printed longest_report (lines_of (quote_reply q) stage.now) out.old out.new result }
{
    let mut page = Page::new(out);
    match q {
        Ok(quoted) => put_result(&mut page, quoted, stage),
        Err(refusal) => put_refusal_line(&mut page, b"", refusal),
    }
    page.place
}

// The lines for a reply of the joint quote, as those of a quote; a refusal names the sheet (document 02, E6).
pub fn report_joint(q: Result<Quoted, JointRefusal>, stage: &[u8], out: &mut [u8]) -> usize
    ensures { Printed longest_report (joint_lines (joint_reply q) stage.now) out.old out.new result }
{
    match q {
        Ok(_) => report(unnamed(q), stage, out),
        Err(JointRefusal::First(refusal)) => report_refused(b"first ", refusal, out),
        Err(JointRefusal::Second(refusal)) => report_refused(b"second ", refusal, out),
    }
}

// The line of a refusal, after the word for what is refused.
fn report_refused(whose: &[u8], refusal: Refusal, out: &mut [u8]) -> usize
    requires { length whose.now ≤ longest_word }
    ensures { Printed longest_report (refusal_line whose.now refusal.number refusal.place) out.old out.new result }
{
    let mut page = Page::new(out);
    put_refusal_line(&mut page, whose, refusal);
    page.place
}

// The line for a reply of the audit.
pub fn report_audit(audited: Result<Audited, AuditRefusal>, out: &mut [u8]) -> usize
    ensures { Printed longest_report (audit_line (audited_case audited)) out.old out.new result }
{
    let mut page = Page::new(out);
    match audited {
        Ok(Audited::Fits(cells)) => put_judged(&mut page, b"fits ", cells),
        Ok(Audited::Differs(cells)) => put_judged(&mut page, b"differs ", cells),
        Err(AuditRefusal::Sheet(refusal)) => put_refusal_line(&mut page, b"sheet ", refusal),
        Err(AuditRefusal::Stage(refusal)) => put_refusal_line(&mut page, b"stage ", refusal),
    }
    page.place
}

// The line for a reply of the clean copy's call and the bytes that it wrote the copy to (document 02, E1).
pub fn report_copy(written: Result<usize, Refusal>, copy: &[u8], out: &mut [u8]) -> usize
    ensures { Printed longest_copy_line (copy_line (written_case written) copy.now) out.old out.new result }
{
    let mut page = Page::new(out);
    match written {
        Ok(k) => put_shown_line(&mut page, copy, k, LONGEST_COPY),
        Err(refused) => put_refusal_line(&mut page, b"", refused),
    }
    page.place
}
