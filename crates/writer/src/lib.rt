// Writing unit sheets: a command as bytes, put into a lent buffer at a place.
// Inner functions: who writes a sheet stays at places that a usize holds.
#![tactic(auto)]

ghost use Rattle.std.specs.Prelude.{◌≡◌, ◌+◌, ◌/◌, ◌%◌, ◌<◌, ◌≤◌, length, take};
ghost use Rattle.base.specs.Inner.Put.{PutWithin};
ghost use Rattle.sheet.specs.Bytes.{command_bytes};
ghost use Rattle.writer.specs.Inner.Widths.{longest_command, place_range};

use base::put;
use sheet::Command;

// How many bytes each command has, its first included.
pub const END_WIDTH: usize = 1;

pub const SIZES_WIDTH: usize = 3;

pub const ROW_WIDTH: usize = 3;

pub const DONT_CARE_WIDTH: usize = 2;

pub const GATE_WIDTH: usize = 4;

pub const OUTPUT_WIDTH: usize = 2;

pub const LIMIT_WIDTH: usize = 4;

// No command has more.
const LONGEST_COMMAND: usize = 4;

// A command as bytes: its own at the front, and how many they are. An array with its length, since a list of its own would need memory, and so could fail.
#[derive(Clone, Copy)]
struct Encoded {
    bytes: [u8; LONGEST_COMMAND],
    length: usize,
}

// The bytes of a command.
fn encode(c: Command) -> Encoded
    ensures { (take result.length result.bytes ≡ command_bytes c) × (result.length ≡ length (command_bytes c)) × (result.length ≤ longest_command) }
{
    match c {
        Command::End => Encoded {
            bytes: [0x00, 0, 0, 0],
            length: END_WIDTH,
        },
        Command::Sizes { n, m } => Encoded {
            bytes: [0x01, n, m, 0],
            length: SIZES_WIDTH,
        },
        Command::Row { p, v } => Encoded {
            bytes: [0x02, p, v, 0],
            length: ROW_WIDTH,
        },
        Command::DontCare { p } => Encoded {
            bytes: [0x03, p, 0, 0],
            length: DONT_CARE_WIDTH,
        },
        Command::Gate { kind, a, b } => Encoded {
            bytes: [0x04, kind, a, b],
            length: GATE_WIDTH,
        },
        Command::Output { s } => Encoded {
            bytes: [0x05, s, 0, 0],
            length: OUTPUT_WIDTH,
        },
        Command::Limit { p, set } => {
            let [low, high] = set.to_le_bytes();
            Encoded {
                bytes: [0x06, p, low, high],
                length: LIMIT_WIDTH,
            }
        }
    }
}

// Puts a command, and hands back the place after it. Bytes that find no room are dropped.
pub fn put_command(out: &mut [u8], at: usize, c: Command) -> usize
    requires { at + length (command_bytes c) < place_range }
    ensures { PutWithin longest_command out.old at (command_bytes c) out.new result }
{
    let encoded = encode(c);
    let bytes = encoded.bytes;
    let length = encoded.length;
    for i in 0..length {
        put(out, at + i, bytes[i]);
    }
    at + length
}
