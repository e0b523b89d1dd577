// The reply to a record: the library is called on what it holds, and its answer put as text onto a page.
// Inner functions: the main loop meets what `put_reply` requires, and the functions here what the others do: bounds that are there for the sums alone.
ghost use Rattle.std.specs.Prelude.{◌+◌, ◌≤◌, length};
ghost use Rattle.base.specs.Inner.Put.{last_place};
ghost use Rattle.diagram.specs.Bytes.{longest_written};
ghost use Rattle.report.specs.Lines.{longest_pairs, longest_word};
ghost use Rattle.samples.specs.Inner.Lengths.{longest_kept, longest_number_line, longest_reply};
ghost use Rattle.text.specs.Inner.Page.{AddsAtMost, HasRoom};
ghost use Rattle.trials.specs.Inner.Window.{most_room};

use base::{Refusal, byte_at};
use clean::LONGEST_COPY;
use diagram::LONGEST_WRITTEN;
use joined::JointRefusal;
use nodes::BoardKind;
use quote::{AuditRefusal, Audited, Quoted};
use relation::Relation;
use report::line_parts::{put_counts, put_mark, put_refusal, put_refusal_line, put_shown_pairs};
use samples::lines::{FILL, put_kept, put_spaced, put_tables};
use samples::records::{call_of, length_at, part, sets_at, tables_at, u32_at};
use stage_reader::{StageRead, read_on};
use stage_writer::write_on;
use text::Page;

// The most bytes of a buffer that is lent: above the longest stage and the longest copy. A larger number counts as this.
const MOST_ROOM: usize = 800;

// The first `k` bytes of a buffer, a stage or a copy of at most so many, as pairs, and the end of their line.
fn put_shown(page: &mut Page, buffer: &[u8], k: usize, most: usize)
    requires { HasRoom (longest_pairs most + longest_kept) page.old }
    ensures { AddsAtMost (longest_pairs most + longest_kept) page.old page.new }
{
    put_shown_pairs(page, buffer, k, most);
    put_kept(page, buffer, k);
}

// The line of a refusal by a call with a buffer, after the word for what is refused where two sheets were handed in.
fn put_refused(page: &mut Page, whose: &[u8], refusal: Refusal, buffer: &[u8])
    requires { (length whose.now ≤ longest_word) × HasRoom longest_reply page.old }
    ensures { AddsAtMost longest_reply page.old page.new }
{
    page.put_text(whose);
    put_refusal(page, refusal);
    put_kept(page, buffer, 0);
}

// Both lines of a quote with a stage.
fn put_quoted(page: &mut Page, quoted: Quoted, buffer: &[u8])
    requires { HasRoom longest_reply page.old }
    ensures { AddsAtMost longest_reply page.old page.new }
{
    put_counts(page, quoted.cells, quoted.floor, quoted.visits);
    put_mark(page, quoted.mark);
    put_shown(page, buffer, quoted.length, LONGEST_WRITTEN);
}

// The reply of a quote.
fn put_quote_reply(page: &mut Page, reply: Result<Quoted, Refusal>, buffer: &[u8])
    requires { HasRoom longest_reply page.old }
    ensures { AddsAtMost longest_reply page.old page.new }
{
    match reply {
        Ok(quoted) => put_quoted(page, quoted, buffer),
        Err(refusal) => put_refused(page, b"", refusal, buffer),
    }
}

// The bytes of a buffer that is to be lent, told by a number of two bytes.
fn room_at(record: &[u8], at: usize) -> usize
    requires { at + 2 ≤ last_place }
    ensures { result ≤ most_room }
{
    length_at(record, at).min(MOST_ROOM)
}

// Quote: budget (4 bytes), buffer length (2), sheet length (2), sheet.
fn put_quote(page: &mut Page, kind: BoardKind, record: &[u8])
    requires { HasRoom longest_reply page.old }
    ensures { AddsAtMost longest_reply page.old page.new }
{
    let budget = u32_at(record, 1);
    let room = room_at(record, 5);
    let sheet = part(record, 9, length_at(record, 7));
    let mut space = [FILL; MOST_ROOM];
    let buffer: &mut [u8] = &mut space[..room];
    let reply = quote::quote_on(kind, sheet, budget, buffer);
    put_quote_reply(page, reply, buffer);
}

// The line of a stage that was judged: the word of the judgement, and the stage's cells.
fn put_judged(page: &mut Page, word: &[u8], cells: u32)
    requires { (length word.now ≤ longest_word) × HasRoom longest_number_line page.old }
    ensures { AddsAtMost longest_number_line page.old page.new }
{
    page.put_named(word, u64::from(cells));
    page.put_byte(b'\n');
}

// Audit: sheet length (2), stage length (2), sheet, stage.
fn put_audit(page: &mut Page, kind: BoardKind, record: &[u8])
    requires { HasRoom longest_reply page.old }
    ensures { AddsAtMost longest_reply page.old page.new }
{
    let sheet_length = length_at(record, 1);
    let sheet = part(record, 5, sheet_length);
    let stage = part(record, 5 + sheet_length, length_at(record, 3));
    match quote::audit_on(kind, sheet, stage) {
        Ok(Audited::Fits(cells)) => put_judged(page, b"fits ", cells),
        Ok(Audited::Differs(cells)) => put_judged(page, b"differs ", cells),
        Err(AuditRefusal::Sheet(refusal)) => put_refusal_line(page, b"sheet ", refusal),
        Err(AuditRefusal::Stage(refusal)) => put_refusal_line(page, b"stage ", refusal),
    }
}

// The line of a search that found tables.
fn put_found(page: &mut Page, answer: search::Answer)
    requires { HasRoom longest_reply page.old }
    ensures { AddsAtMost longest_reply page.old page.new }
{
    put_tables(page, answer.tables);
    put_counts(page, answer.cells, answer.floor, answer.visits);
    put_mark(page, answer.mark);
}

// Search: n (1), m (1), budget (4), 64 sets (2 each).
fn put_search(page: &mut Page, kind: BoardKind, record: &[u8])
    requires { HasRoom longest_reply page.old }
    ensures { AddsAtMost longest_reply page.old page.new }
{
    let n = byte_at(record, 1);
    let m = byte_at(record, 2);
    let sets = sets_at(record, 7);
    match search::search_on(kind, Relation { n, m, sets }, u32_at(record, 3)) {
        Ok(answer) => put_found(page, answer),
        Err(refusal) => put_refusal_line(page, b"", refusal),
    }
}

// The line of what was written to a buffer, a stage or a copy of at most so many bytes, or of the refusal.
fn put_written(page: &mut Page, written: Result<usize, Refusal>, buffer: &[u8], most: usize)
    requires { HasRoom longest_reply page.old × (most ≤ longest_written) }
    ensures { AddsAtMost longest_reply page.old page.new }
{
    match written {
        Ok(k) => {
            put_spaced(page, k as u64);
            put_shown(page, buffer, k, most);
        }
        Err(refusal) => put_refused(page, b"", refusal, buffer),
    }
}

// Write a stage: n (1), m (1), buffer length (2), four tables (8 each).
fn put_write(page: &mut Page, kind: BoardKind, record: &[u8])
    requires { HasRoom longest_reply page.old }
    ensures { AddsAtMost longest_reply page.old page.new }
{
    let n = byte_at(record, 1);
    let m = byte_at(record, 2);
    let room = room_at(record, 3);
    let tables = tables_at(record, 5);
    let mut space = [FILL; MOST_ROOM];
    let buffer: &mut [u8] = &mut space[..room];
    let written = write_on(kind, n, m, tables, buffer);
    put_written(page, written, buffer, LONGEST_WRITTEN);
}

// The line of a stage that was read.
fn put_stage_read(page: &mut Page, read: StageRead)
    requires { HasRoom longest_reply page.old }
    ensures { AddsAtMost longest_reply page.old page.new }
{
    put_spaced(page, u64::from(read.n));
    put_spaced(page, u64::from(read.m));
    put_tables(page, read.tables);
    put_judged(page, b"cells ", u32::from(read.cells));
}

// Read a stage: length (2), stage.
fn put_read(page: &mut Page, kind: BoardKind, record: &[u8])
    requires { HasRoom longest_reply page.old }
    ensures { AddsAtMost longest_reply page.old page.new }
{
    let stage = part(record, 3, length_at(record, 1));
    match read_on(kind, stage) {
        Ok(read) => put_stage_read(page, read),
        Err(refusal) => put_refusal_line(page, b"", refusal),
    }
}

// Clean a sheet: buffer length (2), sheet length (2), sheet.
fn put_clean(page: &mut Page, record: &[u8])
    requires { HasRoom longest_reply page.old }
    ensures { AddsAtMost longest_reply page.old page.new }
{
    let room = room_at(record, 1);
    let sheet = part(record, 5, length_at(record, 3));
    let mut space = [FILL; MOST_ROOM];
    let buffer: &mut [u8] = &mut space[..room];
    let written = clean::clean(sheet, buffer);
    put_written(page, written, buffer, LONGEST_COPY);
}

// Joint quote: budget (4 bytes), buffer length (2), first sheet's length (2), second sheet's length (2), first sheet, second sheet. A refusal names the sheet.
fn put_joined(page: &mut Page, record: &[u8])
    requires { HasRoom longest_reply page.old }
    ensures { AddsAtMost longest_reply page.old page.new }
{
    let budget = u32_at(record, 1);
    let room = room_at(record, 5);
    let first_length = length_at(record, 7);
    let first = part(record, 11, first_length);
    let second = part(record, 11 + first_length, length_at(record, 9));
    let mut space = [FILL; MOST_ROOM];
    let buffer: &mut [u8] = &mut space[..room];
    let reply = joined::quote_joined(first, second, budget, buffer);
    match reply {
        Ok(_) => put_quote_reply(page, joined::unnamed(reply), buffer),
        Err(JointRefusal::First(refusal)) => put_refused(page, b"first ", refusal, buffer),
        Err(JointRefusal::Second(refusal)) => put_refused(page, b"second ", refusal, buffer),
    }
}

// The board that a record is for, by its letter.
fn kind_of(letter: u8) -> BoardKind {
    if call_of(letter) == letter {
        BoardKind::Tree
    } else {
        BoardKind::Sharing
    }
}

// The reply to a record.
pub fn put_reply(page: &mut Page, record: &[u8])
    requires { HasRoom longest_reply page.old }
    ensures { AddsAtMost longest_reply page.old page.new }
{
    let letter = byte_at(record, 0);
    let kind = kind_of(letter);
    match call_of(letter) {
        b'Q' => put_quote(page, kind, record),
        b'A' => put_audit(page, kind, record),
        b'S' => put_search(page, kind, record),
        b'W' => put_write(page, kind, record),
        b'R' => put_read(page, kind, record),
        b'C' => put_clean(page, record),
        b'J' => put_joined(page, record),
        _ => page.put_text(b"unknown letter\n"),
    }
}
