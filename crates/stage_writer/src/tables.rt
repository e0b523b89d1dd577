// A stage that is to be written: whether its sizes and its tables are in range, its selectors, and how long it will be.
ghost use Rattle.std.specs.Prelude.{◌≡◌, ℕ, ◌+◌, ◌*◌, ◌^◌, ◌<◌, ◌≤◌, get_or, length, MatchResult};
ghost use Rattle.base.specs.Cases.{refused_case};
ghost use Rattle.base.specs.Buffers.{fitted};
ghost use Rattle.base.specs.Inner.Lowest.{first_below};
ghost use Rattle.sheet.specs.Limits.{max_wires, is_beyond};
ghost use Rattle.nodes.specs.Counts.{most_inputs};
ghost use Rattle.table.specs.Cells.{wires, total};
ghost use Rattle.stage.specs.Written.{stage_of, written_of};
ghost use Rattle.diagram.specs.Forms.{form_of};
ghost use Rattle.stage_writer.specs.Inner.Wires.{selectors_of};

use crate::wires::{frame, selectors};
use base::Refusal;
use nodes::{BoardKind, most_inputs};
use sheet::Sheet;
use sheet::limits::sizes_out;
use stage::{SELECTOR_BYTES, SHEET_FRAME};
use table::tables::table_out;

// The first of m wires whose table has bits past the patterns of n inputs.
fn first_out(n: u8, m: u8, tables: [u64; Sheet::WIRES]) -> Option<usize>
    requires { m ≤ max_wires }
    ensures { result ≡ first_below m (λ j. is_beyond (2 ^ n) (get_or tables j 0)) }
{
    tables[..usize::from(m)]
        .iter()
        .position(|t| table_out(n, *t))
}

// A stage of so many inputs and wires by the table of each wire, on its board.
#[derive(Clone, Copy)]
pub struct Stage {
    pub kind: BoardKind,
    pub n: u8,
    pub m: u8,
    pub tables: [u64; Sheet::WIRES],
    ghost few_inputs: { n ≤ most_inputs kind },
    ghost few_wires: { m ≤ max_wires },
    ghost in_range: { (j : ℕ) → j < m → get_or tables j 0 < 2 ^ (2 ^ n) },
}

impl Stage {
    // What is handed in, where it is in range: sizes are judged first.
    pub fn new(kind: BoardKind, n: u8, m: u8, tables: [u64; Sheet::WIRES]) -> Result<Stage, Refusal>
        ensures { MatchResult result
            (λ s. (s.kind ≡ kind) × (s.n ≡ n) × (s.m ≡ m) × (s.tables ≡ tables)
            × ((room : ℕ) → written_of (form_of kind) n m tables room ≡ fitted (stage_of (form_of kind) n m tables) room))
            (λ f. (room : ℕ) → written_of (form_of kind) n m tables room ≡ refused_case f) }
    {
        if sizes_out(most_inputs(kind), n, m) {
            return Err(Refusal::at(Refusal::OUT_OF_RANGE, 0));
        }
        if let Some(wire) = first_out(n, m, tables) {
            return Err(Refusal::at(Refusal::OUT_OF_RANGE, wire));
        }
        Ok(Stage { kind, n, m, tables })
    }

    // Its selectors. Six inputs have 63 in a table at most, so that a byte counts those of four wires.
    fn selectors(&self) -> u8
        ensures { result ≡ total (selectors_of self.now.kind self.now.n) self.now.m (wires self.now.tables) }
    {
        let mut all: u8 = 0;
        for j in 0..self.m {
            all += selectors(self.kind, self.n, self.tables[j as usize]);
        }
        all
    }

    // How many bytes it takes.
    pub fn length(&self) -> usize
        ensures { result ≡ length (stage_of (form_of self.now.kind) self.now.n self.now.m self.now.tables) }
    {
        let wires = self.m as usize;
        let selectors = self.selectors() as usize;
        SHEET_FRAME + frame(self.kind) * wires + SELECTOR_BYTES * selectors
    }
}
