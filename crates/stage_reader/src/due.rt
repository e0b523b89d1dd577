// Where a command is due, and where a wire is: whether what is due stands there.
ghost use Rattle.std.specs.Prelude.{◌≡◌, drop, Ok, Err};
ghost use Rattle.base.specs.Refusals.{refusal_at};
ghost use Rattle.stage.specs.Steps.{unless_refused, misplaced, due, turn_number};
ghost use Rattle.diagram.specs.Forms.{form_of};

use crate::steps::operand;
use base::Refusal;
use nodes::BoardKind;

// The number of the refusal at a first byte that is not due: each board has its own commands.
fn misplaced_number(kind: BoardKind, b: u8) -> u8
    ensures { result ≡ misplaced (form_of kind).known b }
{
    match kind {
        BoardKind::Tree => match b {
            0x20 => Refusal::OUT_OF_TURN,
            0x21 => Refusal::OUT_OF_TURN,
            0x22 => Refusal::OUT_OF_TURN,
            0x23 => Refusal::OUT_OF_TURN,
            0x24 => Refusal::OUT_OF_TURN,
            0x2F => Refusal::OUT_OF_TURN,
            _ => Refusal::UNKNOWN,
        },
        BoardKind::Sharing => match b {
            0x20 => Refusal::OUT_OF_TURN,
            0x26 => Refusal::OUT_OF_TURN,
            0x2F => Refusal::OUT_OF_TURN,
            _ => Refusal::UNKNOWN,
        },
    }
}

// The refusal at such a byte.
pub fn misplaced(kind: BoardKind, b: u8, at: usize) -> Refusal
    ensures { result ≡ refusal_at (misplaced (form_of kind).known b) at }
{
    Refusal::at(misplaced_number(kind, b), at)
}

// A command that is due stands at a place.
pub fn due(kind: BoardKind, s: &[u8], at: usize, want: u8) -> Result<(), Refusal>
    ensures { result ≡ due (form_of kind).known Err want at (λ rest. Ok (tt {0})) (drop at s.now) }
{
    let b = operand(s, at, at)?;
    if b == want {
        Ok(())
    } else {
        Err(misplaced(kind, b, at))
    }
}

// Wire i stands where wire j of m is due; `out` where another operand of its command, at a place, is out of range, which is judged before its turn is.
pub fn turn(m: u8, j: u8, i: u8, out: bool, at: usize) -> Result<(), Refusal>
    ensures { result ≡ unless_refused Err at (turn_number m j i out) (Ok (tt {0})) }
{
    if m <= i || out {
        return Err(Refusal::at(Refusal::OUT_OF_RANGE, at));
    }
    if i != j {
        return Err(Refusal::at(Refusal::OUT_OF_TURN, at));
    }
    Ok(())
}
