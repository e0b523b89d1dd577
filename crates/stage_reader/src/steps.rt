// One step of reading a stage sheet: an operand of a command, and what reading one wire gives, whatever drives it.
ghost use Rattle.std.specs.Prelude.{◌≡◌, ◌<◌, ◌≤◌, length, get_or, MatchResult};
ghost use Rattle.base.specs.Refusals.{refusal_at, cut_short};

use base::Refusal;

// A wire that was read: its truth table over all inputs, its cells, and the place after it.
#[derive(Clone, Copy)]
pub struct Wire {
    pub table: u64,
    pub cells: u16,
    pub next: usize,
}

// The byte at place p, of the command at another place: that is cut short where there is none.
pub fn operand(s: &[u8], p: usize, at: usize) -> Result<u8, Refusal>
    ensures { MatchResult result (λ x. (p < length s.now) × (x ≡ get_or s.now p 0)) (λ f. (length s.now ≤ p) × (f ≡ refusal_at cut_short at)) }
{
    s.get(p).copied().ok_or(Refusal::at(Refusal::CUT_SHORT, at))
}
