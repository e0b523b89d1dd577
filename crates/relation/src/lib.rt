// Boolean relations: which wire values are allowed on each input pattern.
#![tactic(auto)]

ghost use Rattle.std.specs.Prelude.{◌≡◌, ◌≤◌};
ghost use Rattle.base.specs.Cases.{verdict_case};
ghost use Rattle.sheet.specs.Limits.{max_inputs};
ghost use Rattle.relation.specs.Handed.{check_of};
ghost use Rattle.relation.specs.Joined.{join_of};

use crate::handed::{empty_pattern, wide_pattern};
use crate::patterns::in_both;
use base::Refusal;
use sheet::Sheet;
use sheet::limits::sizes_out;

pub mod values; // sets of wire values
pub mod patterns; // the sets of all patterns together, and the value of tables on a pattern
mod handed; // the first pattern that a test refuses

// n inputs, m wires, and for each pattern the set of allowed values: bit v of a set is value v.
#[derive(Clone, Copy)]
pub struct Relation {
    pub n: u8,
    pub m: u8,
    pub sets: [u16; Sheet::MAX_PATTERNS],
}

impl Relation {
    // The test of a relation that is handed over as numbers, with at most so many inputs (document 02, E5): sizes, then bits past the last value, then empty sets.
    // Inner: a search asks with the lines of its board, and forming the relation of a sheet with those of a sheet; neither is above the limit required.
    pub fn check(self, most: u8) -> Result<(), Refusal>
        requires { most ≤ max_inputs }
        ensures { verdict_case result ≡ check_of most self }
    {
        let n = self.n;
        let m = self.m;
        let sets = self.sets;
        if sizes_out(most, n, m) {
            return Err(Refusal::at(Refusal::OUT_OF_RANGE, 0));
        }
        if let Some(p) = wide_pattern(n, m, sets) {
            return Err(Refusal::at(Refusal::OUT_OF_RANGE, p as usize));
        }
        if let Some(p) = empty_pattern(n, sets) {
            return Err(Refusal::at(Refusal::EMPTY, p as usize));
        }
        Ok(())
    }

    // What this relation and another of the same sizes both allow (document 02, E6).
    // Inner: a caller compares the sizes before; of others the reply is as the contract says, with the sizes of this one.
    pub fn join(self, other: Relation) -> Relation
        ensures { result ≡ join_of self other }
    {
        let n = self.n;
        let m = self.m;
        let first = self.sets;
        let second = other.sets;
        let sets = in_both(first, second);
        Relation { n, m, sets }
    }
}
