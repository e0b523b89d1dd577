// The numbers of a diagram as they are read: what each drives, and which input it tests.
// Inner functions: `read_on` has tested the sizes before it calls them.
ghost use Rattle.std.specs.Prelude.{◌≡◌, ◌+◌, ◌<◌, ◌≤◌, [], ◌∷◌, length, drop, Ok, Err, MatchResult};
ghost use Rattle.base.specs.Refusals.{refusal_at, cut_short};
ghost use Rattle.sheet.specs.Limits.{max_inputs};
ghost use Rattle.stage.specs.Bytes.{selector_bytes};
ghost use Rattle.stage.specs.Steps.{unless_refused};
ghost use Rattle.diagram.specs.Diagram.{most_entries, FitsAfter, entry_price};
ghost use Rattle.diagram.specs.Read.{entry_refusal, top_at};
ghost use Rattle.diagram.specs.Diagrams.{diagram_drawing};

use crate::steps::{Wire, operand};
use crate::tables::select;
use base::Refusal;
use diagram::{FIRST_NUMBER, MOST_ENTRIES};
use sheet::limits::count_out;
use stage::SELECTOR_BYTES;
use std::marker::Model;
use table::tables::full_table;

const NUMBERS: usize = FIRST_NUMBER as usize + MOST_ENTRIES;

// An entry as it stands in the sheet: the input that it tests, and the numbers that it goes on to where the input is 0 and where it is 1.
#[derive(Clone, Copy)]
pub struct Entry {
    input: u8,
    on_zero: u8,
    on_one: u8,
}

impl Entry {
    ghost use Rattle.stage_reader.specs.Inner.Numbers.{as_entry, entry_there};

    // The entry at a place.
    pub fn read(s: &[u8], at: usize) -> Result<Entry, Refusal>
        ensures { MatchResult result (λ e. (at + selector_bytes ≤ length s.now) × (as_entry e ≡ entry_there s.now at))
            (λ f. (length s.now < at + selector_bytes) × (f ≡ refusal_at cut_short at)) }
    {
        if s.len() < SELECTOR_BYTES || s.len() - SELECTOR_BYTES < at {
            return Err(Refusal::at(Refusal::CUT_SHORT, at));
        }
        Ok(Entry {
            input: s[at],
            on_zero: s[at + 1],
            on_one: s[at + 2],
        })
    }

    // What it counts for: one, whether or not it repeats another and whether or not anything leads to it, but nothing where it names the constants 0 and 1
    // (document 02, E4).
    fn price(self) -> u16
        ensures { result ≡ entry_price (as_entry self) }
    {
        let zero = self.on_zero == 0;
        let one = self.on_one == 1;
        u16::from(!(zero && one))
    }
}

// The numbers of a wire of n inputs so far: those of the two constants and of the entries that were read, with the cells of these. At a number stand the table
// that it drives and its entry. Tables and entries are two arrays, since blanks are then zeros, and are cleared in one stroke for each wire.
#[derive(Drop)]
pub struct Numbers {
    n: u8,
    count: u8,
    cells: u16,
    tables: [u64; NUMBERS],
    entries: [Entry; NUMBERS],
}

// Clauses see the entries.
impl Model for Numbers {
    ghost use Rattle.stage_reader.specs.Inner.Listed.{Listed};

    ghost Value = { Listed };

    ghost use Rattle.stage_reader.specs.Inner.Numbers.{listed_in, Told};

    ghost view = { listed_in };

    ghost invariant = { Told };
}

impl Numbers {
    ghost use Rattle.stage_reader.specs.Inner.Listed.{listed};
    ghost use Rattle.stage_reader.specs.Inner.Numbers.{as_entry};
    ghost use Rattle.stage_reader.specs.Inner.Wires.{wire_reply, step_of};

    // The numbers of the constants. A constant has a table but no entry: it tests no input, and so stands for one after all inputs.
    pub fn constants(n: u8) -> Numbers
        requires { n ≤ max_inputs }
        ensures { result ≡ listed n [] }
    {
        let mut tables = [0u64; NUMBERS];
        tables[1] = full_table(n);
        let blank = Entry {
            input: 0,
            on_zero: 0,
            on_one: 0,
        };
        let mut entries = [blank; NUMBERS];
        let after_all = Entry {
            input: n + 1,
            on_zero: 0,
            on_one: 0,
        };
        entries[0] = after_all;
        entries[1] = after_all;
        Numbers {
            n,
            count: 0,
            cells: 0,
            tables,
            entries,
        }
    }

    // Whether the entry at a place may follow the others. A test is over both numbers that it names before the next one comes.
    pub fn judge(&self, entry: Entry, at: usize) -> Result<(), Refusal>
        ensures { result ≡ unless_refused Err at (entry_refusal self.now.inputs self.now.entries (as_entry entry)) (Ok (tt {0})) }
    {
        if count_out(entry.input, self.n) {
            return Err(Refusal::at(Refusal::OUT_OF_RANGE, at));
        }
        let own = FIRST_NUMBER + self.count;
        if own <= entry.on_zero || own <= entry.on_one {
            return Err(Refusal::at(Refusal::NO_SIGNAL, at));
        }
        let zero = self.entries[entry.on_zero as usize];
        let one = self.entries[entry.on_one as usize];
        if zero.input <= entry.input || one.input <= entry.input {
            return Err(Refusal::at(Refusal::NOT_ASCENDING, at));
        }
        Ok(())
    }

    // One entry more, with the next number.
    pub fn push(&mut self, entry: Entry)
        requires { (length self.old.entries < most_entries) × FitsAfter self.old.inputs self.old.entries (as_entry entry) }
        ensures { self.new ≡ listed self.old.inputs (as_entry entry ∷ self.old.entries) }
    {
        let off = self.tables[entry.on_zero as usize];
        let on = self.tables[entry.on_one as usize];
        let table = select(self.n, entry.input, off, on);
        let own = FIRST_NUMBER + self.count;
        self.tables[own as usize] = table;
        self.entries[own as usize] = entry;
        self.count += 1;
        let price = entry.price();
        self.cells += price;
    }

    // The top at a place: a number that an entry or a constant has. It ends the wire.
    pub fn read_top(&self, s: &[u8], at: usize) -> Result<Wire, Refusal>
        ensures { wire_reply result ≡ step_of diagram_drawing self.now.inputs (top_at self.now.entries at (drop at s.now)) }
    {
        let top = operand(s, at, at)?;
        if FIRST_NUMBER + self.count <= top {
            return Err(Refusal::at(Refusal::NO_SIGNAL, at));
        }
        Ok(Wire {
            table: self.tables[top as usize],
            cells: self.cells,
            next: at + 1,
        })
    }
}
