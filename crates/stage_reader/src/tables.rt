// Truth tables of an input, and of a selector from the tables of its branches.
// Inner functions: the readers of trees and of diagrams meet what they require, inputs that there are and tables of n inputs.
ghost use Rattle.std.specs.Prelude.{◌≡◌, ◌^◌, ◌<◌, ◌≤◌};
ghost use Rattle.sheet.specs.Limits.{max_inputs};
ghost use Rattle.stage_reader.specs.Inner.Tables.{input_table, select_of};

// The table of the input whose bit of a pattern is bit j.
fn input_table(j: u8) -> u64
    requires { j < max_inputs }
    ensures { result ≡ input_table j }
{
    match j {
        0 => 0xAAAAAAAAAAAAAAAA,
        1 => 0xCCCCCCCCCCCCCCCC,
        2 => 0xF0F0F0F0F0F0F0F0,
        3 => 0xFF00FF00FF00FF00,
        4 => 0xFFFF0000FFFF0000,
        _ => 0xFFFFFFFF00000000,
    }
}

// The table of a selector on input i, of the tables of its branches for 0 and 1: where the input is 1, each bit of `off` that differs is turned.
pub fn select(n: u8, i: u8, off: u64, on: u64) -> u64
    requires { (1 ≤ i) × (i ≤ n) × (n ≤ max_inputs) × (off < 2 ^ (2 ^ n)) × (on < 2 ^ (2 ^ n)) }
    ensures { result ≡ select_of n i off on }
{
    off ^ ((off ^ on) & input_table(n - i))
}
