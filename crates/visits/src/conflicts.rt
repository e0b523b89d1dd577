// The pattern and wire to split at.
// Inner functions: the cycle and the entry of the search meet what they require.
ghost use Rattle.std.specs.Prelude.{◌≡◌, ◌<◌, ◌≤◌, ◌^◌, IfSome};
ghost use Rattle.sheet.specs.Limits.{max_patterns};
ghost use Rattle.table.specs.Cells.{wires};
ghost use Rattle.table.specs.Inner.Wide.{sections};
ghost use Rattle.table.specs.Inner.Pairs.{narrow_patterns};
ghost use Rattle.nodes.specs.Counts.{most_inputs};
ghost use Rattle.relation.specs.Tests.{of_sets};
ghost use Rattle.sheet.specs.Inner.Sized.{Sized};
ghost use Rattle.parts.specs.Inner.Boards.{lent_kind, lent_inputs, lent_wires, lent_wide, Lent};
ghost use Rattle.parts.specs.Inner.Parts.{PartSets};
ghost use Rattle.parts.specs.Inner.Picks.{tables_of};
ghost use Rattle.parts.specs.Inner.States.{side_at, AtHand};
ghost use Rattle.visits.specs.Inner.Conflicts.{Settled, split_place, ClearedBy, AllowedLater, AllowedBelow};

use by_value::{SECTION_WORDS, VALUE_WORDS, allowing, first_refused};
use parts::boards::{BOARD_PLACE, COUNT_PLACE, WIRES_PLACE, is_wide};
use parts::states::Running;
use relation::patterns::value_in;
use relation::values::{contains, is_open};
use sheet::Sheet;
use table::picks::LENT;
use table::wide::{SECTION, SECTIONS};

// The tables of the part at hand on section q.
pub fn word_of(state: &Running, low: u64, q: u8) -> u64
    requires { q < sections }
    ensures { result ≡ side_at low state.now q }
{
    if q == 0 {
        low
    } else {
        state.rest[q as usize - 1]
    }
}

// The lowest pattern of section q on which the tables' value is not allowed by the whole relation. Whoever calls needs no more than that it is allowed below,
// and `first_open` goes on from there.
fn refused_on(whole: &[u64; VALUE_WORDS], q: u8, tables: u64) -> Option<u8>
    requires { q < sections }
    ensures inside { IfSome result (λ p. p < narrow_patterns) }
    ensures cleared { ClearedBy whole.now q tables result }
{
    let at = SECTION_WORDS * q as usize;
    first_refused(allowing(
        whole[at],
        whole[at + 1],
        whole[at + 2],
        whole[at + 3],
        tables,
    ))
}

// A pattern below which the later sections are without conflict: the lowest in conflict there, or the number of patterns.
fn later_conflict(state: &Running, count: u8) -> u8
    requires { count ≤ max_patterns }
    ensures { AllowedLater state.now count result }
{
    for q in 1..SECTIONS {
        if let Some(p) = refused_on(&state.whole, q, state.rest[q as usize - 1]) {
            return SECTION * q + p;
        }
    }
    count
}

// A pattern below which the tables of the part at hand are without conflict: the lowest in conflict with the whole relation, or the number of patterns. What a split dropped of
// the whole is no value of the picks, so that it is the lowest in conflict with the part too.
pub fn first_conflict(e: &[u32; LENT], state: &Running, low: u64) -> u8
    requires { Lent e.now }
    ensures { AllowedBelow (lent_wide e.now) (lent_inputs e.now) low state.now result }
{
    if let Some(p) = refused_on(&state.whole, 0, low) {
        return p;
    }
    let count = e[COUNT_PLACE] as u8;
    if is_wide(e[BOARD_PLACE] as u8) {
        return later_conflict(state, count);
    }
    count
}

// Where to split: the lowest pattern on which the picks' value is not allowed, and the lowest wire open there. None without a conflict. A pattern in conflict has an open wire, since every pick
// fits its projection. Patterns below `from` are known to be without conflict. The two nested loops, left by a label, are the form that document 01 names for this.
pub fn first_open(
    e: &[u32; LENT],
    from: u8,
    sets: &[u16; Sheet::MAX_PATTERNS],
    state: &Running,
    low: u64,
) -> Option<(u8, u8)>
    requires { Lent e.now × Sized (most_inputs (lent_kind e.now)) (lent_inputs e.now) (lent_wires e.now) × PartSets (lent_inputs e.now) (lent_wires e.now) sets.now
        × AtHand low state.now (tables_of (lent_kind e.now) (lent_inputs e.now) sets.now) × (from ≤ 2 ^ lent_inputs e.now)
        × Settled (lent_wires e.now) sets.now (tables_of (lent_kind e.now) (lent_inputs e.now) sets.now) from }
    ensures { result ≡ split_place (lent_inputs e.now) (lent_wires e.now) (of_sets sets.now)
        (wires (tables_of (lent_kind e.now) (lent_inputs e.now) sets.now)) }
{
    let count = e[COUNT_PLACE] as u8;
    let m = e[WIRES_PLACE] as u8;
    let mut found = None;
    'patterns: for p in from..count {
        let set = sets[p as usize];
        if !contains(set, value_in(word_of(state, low, p / SECTION), p % SECTION)) {
            for j in 0..m {
                if is_open(set, j) {
                    found = Some((p, j));
                    break 'patterns;
                }
            }
        }
    }
    found
}
