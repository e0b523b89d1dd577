// The commands of a copy, put to the front of a lent buffer section by section, each call with the place after what it put.
// Inner functions: `write_copy` hands on the sheet that it is given; the bounds on places are there for the sums alone.
ghost use Rattle.std.specs.Prelude.{◌≡◌, ℕ, ◌+◌, ◌*◌, ◌<◌, ◌≤◌, List, Option};
ghost use Rattle.std.proofs.lemmas.List.Edits.{sets};
ghost use Rattle.base.specs.Inner.Put.{Put, PutWithin, last_place};
ghost use Rattle.sheet.specs.declared.Command.{Command};
ghost use Rattle.sheet.specs.Bytes.{bytes_of};
ghost use Rattle.reader.specs.Inner.WasRead.{WasRead};
ghost use Rattle.writer.specs.Inner.Widths.{longest_command};
ghost use Rattle.clean.specs.Copy.{listed, permits_all, copy_mark, copy_limit, copy_gate, copy_output, copy_bytes};
ghost use Rattle.clean.specs.Inner.Sections.{commands_in};

use base::{byte_at, entry_or};
use sheet::limits::{all_ones, patterns_of};
use sheet::{Command, LogicGate, Sheet};
use writer::put_command;

// A pattern's 02 or 03.
fn mark_of(sheet: Sheet, p: u8) -> Option<Command>
    ensures { commands_in result ≡ copy_mark sheet p }
{
    if byte_at(&sheet.marks, p as usize) == Sheet::DONT_CARE {
        return Some(Command::DontCare { p });
    }
    let v = byte_at(&sheet.values, p as usize);
    Some(Command::Row { p, v })
}

// Whether a set has every value of m wires, so that it limits nothing.
pub(crate) fn permits_all(m: u8, set: u16) -> bool
    ensures { result ≡ permits_all m set }
{
    let all = all_ones(m);
    set == all
}

// A pattern's 06, unless its set is all values.
fn limit_of(sheet: Sheet, p: u8) -> Option<Command>
    ensures { commands_in result ≡ copy_limit sheet p }
{
    let set = entry_or(&sheet.limits, p as usize, 0);
    if permits_all(sheet.m, set) {
        return None;
    }
    Some(Command::Limit { p, set })
}

// A gate.
fn gate_of(sheet: Sheet, i: u8) -> Option<Command>
    ensures { commands_in result ≡ copy_gate sheet i }
{
    let gate = entry_or(&sheet.gates, i as usize, LogicGate::NONE);
    Some(Command::Gate {
        kind: gate.kind,
        a: gate.left,
        b: gate.right,
    })
}

// An output.
fn output_of(sheet: Sheet, i: u8) -> Option<Command>
    ensures { commands_in result ≡ copy_output sheet i }
{
    let s = byte_at(&sheet.signals, i as usize);
    Some(Command::Output { s })
}

// Puts a command, if there is one.
fn put_some(out: &mut [u8], at: usize, command: Option<Command>) -> usize
    requires { at + longest_command ≤ last_place }
    ensures { PutWithin longest_command out.old at (bytes_of (commands_in command)) out.new result }
{
    match command {
        Some(c) => put_command(out, at, c),
        None => at,
    }
}

// Puts a section: what there is to say of so many patterns, gates or outputs, one after the other.
fn put_section<F: Fn(Sheet, u8) -> Option<Command>>(
    out: &mut [u8],
    at: usize,
    sheet: Sheet,
    count: u8,
    said: F,
) -> usize
    requires callable { F.IsAlwaysCallable said }
    requires room { at + longest_command * count ≤ last_place }
    ensures short { result ≤ at + longest_command * count }
    ensures put { (says : ℕ → List Command) → ((i : ℕ) (r : Option Command) → i < count → F.post said sheet i r → commands_in r ≡ says i)
        → Put out.old at (bytes_of (listed count says)) out.new result }
{
    let mut next = at;
    for i in 0..count {
        next = put_some(out, next, said(sheet, i));
    }
    next
}

// Puts the copy of a sheet. Bytes that find no room are dropped.
pub fn put_copy(out: &mut [u8], sheet: Sheet)
    requires { WasRead sheet }
    ensures { out.new ≡ sets out.old 0 (copy_bytes sheet) }
{
    let patterns = patterns_of(sheet.n);
    let sizes = Command::Sizes {
        n: sheet.n,
        m: sheet.m,
    };
    let marks = put_command(out, 0, sizes);
    let limits = put_section(out, marks, sheet, patterns, mark_of);
    let gates = put_section(out, limits, sheet, patterns, limit_of);
    let outputs = put_section(out, gates, sheet, sheet.gate_count, gate_of);
    let end = put_section(out, outputs, sheet, sheet.output_count, output_of);
    put_command(out, end, Command::End);
}
