// The lines of a report, put onto a page.
// Inner functions: the reports meet what they require, bounds on lengths that are there for the sums alone.
ghost use Rattle.std.specs.Prelude.{◌≤◌, length, Ok};
ghost use Rattle.quote.specs.Cases.{quote_reply};
ghost use Rattle.text.specs.Inner.Page.{Adds, HasRoom};
ghost use Rattle.report.specs.Lines.{longest_report, longest_word, lines_of, judged_line};
ghost use Rattle.report.specs.Inner.Lengths.{longest_judged};

use crate::line_parts::{put_counts, put_mark, put_shown_line};
use diagram::LONGEST_WRITTEN;
use quote::Quoted;
use text::Page;

// Puts both lines of a quote with a stage.
pub fn put_result(page: &mut Page, quoted: Quoted, stage: &[u8])
    requires { HasRoom longest_report page.old }
    ensures { Adds longest_report (lines_of (quote_reply (Ok quoted)) stage.now) page.old page.new }
{
    put_counts(page, quoted.cells, quoted.floor, quoted.visits);
    put_mark(page, quoted.mark);
    put_shown_line(page, stage, quoted.length, LONGEST_WRITTEN);
}

// Puts the line of a stage that was judged: the word of the judgement, and the stage's cells.
pub fn put_judged(page: &mut Page, word: &[u8], cells: u32)
    requires { (length word.now ≤ longest_word) × HasRoom longest_judged page.old }
    ensures { Adds longest_judged (judged_line word.now cells) page.old page.new }
{
    page.put_text(word);
    page.put_named(b"cells ", u64::from(cells));
    page.put_byte(b'\n');
}
