// The tables of the part at hand, as a split reads them and puts them back, and where to look for a conflict of a part with other tables.
// Inner functions: the cycle of the search meets what they require.
ghost use Rattle.std.specs.Prelude.{◌≡◌, cond, ℕ, ◌/◌, ◌%◌, ◌<◌, length};
ghost use Rattle.sheet.specs.Limits.{max_wires, max_patterns};
ghost use Rattle.table.specs.Bits.{bit};
ghost use Rattle.table.specs.Inner.Pairs.{narrow_patterns};
ghost use Rattle.lanes.specs.Inner.Lanes.{lane_of, LanesBelow};
ghost use Rattle.parts.specs.Inner.Boards.{lent_inputs, lent_wide, Lent};
ghost use Rattle.parts.specs.Inner.States.{side_at, with_rest};
ghost use Rattle.visits.specs.Inner.States.{saved_of};
ghost use Rattle.visits.specs.Inner.Conflicts.{AllowedBelow};

use lanes::LANES;
use parts::states::{RESTS, Running};
use table::picks::LENT;
use table::wide::SECTION;
use visits::conflicts::{first_conflict, word_of};
use visits::states::{put_back, rest_of};

// The bits of all wires' tables on pattern p.
pub fn driven_on(state: &Running, low: u64, p: u8) -> u64
    requires { p < max_patterns }
    ensures { ((j : ℕ) → j < max_wires → lane_of result j ≡ bit (lane_of (side_at low state.now (p / narrow_patterns)) j) (p % narrow_patterns)) × LanesBelow 2 result }
{
    (word_of(state, low, p / SECTION) >> (p % SECTION)) & LANES
}

// A pattern below which a part is without conflict. Where no pick was made again, the conflict stays where it was.
pub fn begin_at(e: &[u32; LENT], state: &Running, wires: u64, low: u64, p: u8) -> u8
    requires { Lent e.now }
    ensures { (wires ≡ 0 → result ≡ p) × (0 < wires → AllowedBelow (lent_wide e.now) (lent_inputs e.now) low state.now result) }
{
    if wires == 0 {
        return p;
    }
    first_conflict(e, state, low)
}

// The tables on the sections past the first, where the board is wide; zeros where it is not.
pub fn saved(wide: bool, state: &Running) -> [u64; RESTS]
    ensures { result ≡ saved_of wide state.now }
{
    if wide { rest_of(state) } else { [0; RESTS] }
}

// They are put back where the board is wide.
pub fn restore(wide: bool, state: &mut Running, rest: [u64; RESTS])
    ensures { state.new ≡ cond wide (with_rest state.old rest) state.old }
{
    if wide {
        put_back(state, rest);
    }
}
