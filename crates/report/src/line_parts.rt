// The parts of which lines are made, put onto a page. The drawn cases' replies are made of them too.
// Inner functions: callers meet what they require, bounds on places and lengths that are there for the sums alone.
ghost use Rattle.std.specs.Prelude.{◌≡◌, ◌≤◌, min, length, take};
ghost use Rattle.text.specs.Inner.Page.{Adds, HasRoom};
ghost use Rattle.report.specs.Lines.{longest_counts, longest_pairs, longest_shown_line, longest_word};
ghost use Rattle.report.specs.Lines.{counts_of, shown_pairs, shown_line, refusal_text, refusal_line};
ghost use Rattle.report.specs.Inner.Lengths.{longest_refusal, longest_refusal_line};
ghost use Rattle.report.specs.Inner.Marks.{mark_text};

use base::Refusal;
use search::Mark;
use text::Page;

// Puts the counts of a reply: "cells C floor F visits V".
pub fn put_counts(page: &mut Page, cells: u64, floor: u64, visits: u64)
    requires { HasRoom longest_counts page.old }
    ensures { Adds longest_counts (counts_of cells floor visits) page.old page.new }
{
    page.put_named(b"cells ", cells);
    page.put_named(b" floor ", floor);
    page.put_named(b" visits ", visits);
}

// Puts the word of a mark, and the end of its line.
pub fn put_mark(page: &mut Page, mark: Mark)
    requires { HasRoom longest_word page.old }
    ensures { Adds longest_word (mark_text mark) page.old page.new }
{
    match mark {
        Mark::Best => page.put_text(b" best\n"),
        Mark::Stopped => page.put_text(b" stopped\n"),
    }
}

// The bytes of a buffer that are shown: the first `k`, of a stage or of a copy, which has at most so many.
fn shown(bytes: &[u8], k: usize, most: usize) -> &[u8]
    ensures { result.now ≡ take (min most k) bytes.now }
{
    &bytes[..k.min(most).min(bytes.len())]
}

// Puts them as pairs.
pub fn put_shown_pairs(page: &mut Page, bytes: &[u8], k: usize, most: usize)
    requires { HasRoom (longest_pairs most) page.old }
    ensures { Adds (longest_pairs most) (shown_pairs most k bytes.now) page.old page.new }
{
    page.put_hex_pairs(shown(bytes, k, most));
}

// Puts their line.
pub fn put_shown_line(page: &mut Page, bytes: &[u8], k: usize, most: usize)
    requires { HasRoom (longest_shown_line most) page.old }
    ensures { Adds (longest_shown_line most) (shown_line most k bytes.now) page.old page.new }
{
    put_shown_pairs(page, bytes, k, most);
    page.put_text(b"\n");
}

// Puts a refusal: "refused N at P".
pub fn put_refusal(page: &mut Page, refusal: Refusal)
    requires { HasRoom longest_refusal page.old }
    ensures { Adds longest_refusal (refusal_text refusal.number refusal.place) page.old page.new }
{
    page.put_named(b"refused ", u64::from(refusal.number));
    page.put_named(b" at ", refusal.place as u64);
}

// Puts its line, after the word for what is refused where several things were handed in.
pub fn put_refusal_line(page: &mut Page, whose: &[u8], refusal: Refusal)
    requires { (length whose.now ≤ longest_word) × HasRoom longest_refusal_line page.old }
    ensures { Adds longest_refusal_line (refusal_line whose.now refusal.number refusal.place) page.old page.new }
{
    page.put_text(whose);
    put_refusal(page, refusal);
    page.put_byte(b'\n');
}
