// What the commands of a sheet say, gathered one command after the other.
// `Sheet::add` and `Sheet::finish` are inner functions for the reader, which meets what they speak of: a sheet gathered from the commands
// before, and a command whose pattern was tested.
ghost use Rattle.std.specs.Prelude.{◌≡◌, ◌||◌, [], ◌∷◌, ◌+◌, ◌<◌, ◌≤◌, get_or, leb, eqb};
ghost use Rattle.base.specs.Inner.Lowest.{first_below};
ghost use Rattle.sheet.specs.Gathered.{gathered, no_mark};
ghost use Rattle.sheet.specs.Limits.{max_patterns};
ghost use Rattle.sheet.specs.Inner.Gathering.{pattern_of, fault_of, Takes, Judges, Adds, Ends, TellsBlank};

use crate::limits::{all_ones, patterns_of};
use crate::{Command, LogicGate, Sheet};
use base::Refusal;

// The number of signals there are.
fn signals_made(m: u8, gates: u8) -> u16
    ensures { result ≡ m + gates }
{
    (m as u16) + (gates as u16)
}

// One of two signals is not made yet.
fn not_made(made: u16, a: u8, b: u8) -> bool
    ensures { result ≡ leb made a || leb made b }
{
    made <= a as u16 || made <= b as u16
}

// Why a gate or an output at a place is refused: 6 before 8.
fn fault_of(unmade: bool, full: bool, at: usize) -> Result<(), Refusal>
    ensures { result ≡ fault_of unmade full at }
{
    if unmade {
        return Err(Refusal::at(Refusal::NO_SIGNAL, at));
    }
    if full {
        return Err(Refusal::at(Refusal::TOO_MANY, at));
    }
    Ok(())
}

// The lowest pattern below count that has no mark.
fn missing(marks: [u8; Sheet::MAX_PATTERNS], count: usize) -> Option<usize>
    requires { count ≤ max_patterns }
    ensures { result ≡ first_below count (λ p. eqb (get_or marks p 0) no_mark) }
{
    for p in 0..count {
        if marks[p] == Sheet::NO_MARK {
            return Some(p);
        }
    }
    None
}

impl Sheet {
    // What the sizes alone say.
    pub fn fresh(n: u8, m: u8) -> Sheet
        ensures { result ≡ gathered (Command.Sizes n m ∷ []) }
    {
        let all = all_ones(m);
        Sheet {
            n,
            m,
            marks: [0; Sheet::MAX_PATTERNS],
            values: [0; Sheet::MAX_PATTERNS],
            limits: [all; Sheet::MAX_PATTERNS],
            gate_count: 0,
            gates: [LogicGate::NONE; Sheet::MAX_GATES as usize],
            output_count: 0,
            signals: [0; Sheet::MAX_OUTPUTS as usize],
        }
    }

    // 02: 7, or the pattern has its value.
    fn row(mut self, p: u8, v: u8, at: usize) -> Result<Sheet, Refusal>
        requires { p < max_patterns }
        ensures { Judges self (Command.Row p v) at result }
    {
        let i = p as usize;
        if self.marks[i] != Sheet::NO_MARK {
            return Err(Refusal::at(Refusal::REPEATED, at));
        }
        self.marks[i] = Sheet::ROW;
        self.values[i] = v;
        Ok(self)
    }

    // 03: 7, or the pattern is impossible.
    fn dont_care(mut self, p: u8, at: usize) -> Result<Sheet, Refusal>
        requires { p < max_patterns }
        ensures { Judges self (Command.DontCare p) at result }
    {
        let i = p as usize;
        if self.marks[i] != Sheet::NO_MARK {
            return Err(Refusal::at(Refusal::REPEATED, at));
        }
        self.marks[i] = Sheet::DONT_CARE;
        Ok(self)
    }

    // 04: 6, 8, or one gate more.
    fn gate(mut self, kind: u8, a: u8, b: u8, at: usize) -> Result<Sheet, Refusal>
        ensures { Judges self (Command.Gate kind a b) at result }
    {
        let made = signals_made(self.m, self.gate_count);
        fault_of(
            not_made(made, a, b),
            Sheet::MAX_GATES <= self.gate_count,
            at,
        )?;
        let i = self.gate_count as usize;
        self.gates[i] = LogicGate {
            kind,
            left: a,
            right: b,
        };
        self.gate_count += 1;
        Ok(self)
    }

    // 05: 6, 8, or one output more.
    fn output(mut self, s: u8, at: usize) -> Result<Sheet, Refusal>
        ensures { Judges self (Command.Output s) at result }
    {
        let made = signals_made(self.m, self.gate_count);
        fault_of(
            made <= s as u16,
            Sheet::MAX_OUTPUTS <= self.output_count,
            at,
        )?;
        let i = self.output_count as usize;
        self.signals[i] = s;
        self.output_count += 1;
        Ok(self)
    }

    // 06: several for one pattern intersect.
    fn limit(mut self, p: u8, set: u16) -> Sheet
        requires { p < max_patterns }
        ensures { Takes self (Command.Limit p set) result }
    {
        let i = p as usize;
        let allowed = self.limits[i];
        self.limits[i] = allowed & set;
        self
    }

    // One command more, whose first byte is at a place: 6, 7, 8 or taken. The reader has tested the command's pattern.
    pub fn add(self, c: Command, at: usize) -> Result<Sheet, Refusal>
        requires { pattern_of c < max_patterns }
        ensures { Adds self c at result }
    {
        match c {
            Command::End => Ok(self),
            Command::Sizes { n, m } => Ok(Sheet::fresh(n, m)),
            Command::Row { p, v } => self.row(p, v, at),
            Command::DontCare { p } => self.dont_care(p, at),
            Command::Gate { kind, a, b } => self.gate(kind, a, b, at),
            Command::Output { s } => self.output(s, at),
            Command::Limit { p, set } => Ok(self.limit(p, set)),
        }
    }

    // The end, 00 being read up to a place: 4, 9, or the sheet stands.
    pub fn finish(self, to: usize, len: usize) -> Result<Sheet, Refusal>
        ensures verdict { Ends self to len result }
        ensures blank { TellsBlank result }
    {
        if to < len {
            return Err(Refusal::at(Refusal::TRAILING, to));
        }
        let marks = self.marks;
        let count = patterns_of(self.n) as usize;
        match missing(marks, count) {
            Some(p) => Err(Refusal::at(Refusal::MISSING_ROW, p)),
            None => Ok(self),
        }
    }
}
