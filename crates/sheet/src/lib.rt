// Unit sheets: the limits, the commands, and what the commands say, gathered into one sheet.
#![tactic(auto)]

pub mod limits; // sizes and sets against the limits
mod gather; // the sheet with one command more

// A command of a unit sheet: first bytes 00 to 06, in this order.
#[derive(Clone, Copy)]
pub enum Command {
    End,
    Sizes { n: u8, m: u8 },
    Row { p: u8, v: u8 },
    DontCare { p: u8 },
    Gate { kind: u8, a: u8, b: u8 },
    Output { s: u8 },
    Limit { p: u8, set: u16 },
}

// A gate of the second stage: its kind, and the numbers of its two signals. A kind stays a number: what a gate makes is told by arithmetic on it, with no branch
// (document 02, E3).
#[derive(Clone, Copy)]
pub struct LogicGate {
    pub kind: u8,
    pub left: u8,
    pub right: u8,
}

impl LogicGate {
    // What stands past the last gate.
    pub const NONE: LogicGate = LogicGate {
        kind: 0,
        left: 0,
        right: 0,
    };
}

// What the commands of a sheet say. Entries past the last pattern, gate or output are 0.
#[derive(Clone, Copy)]
pub struct Sheet {
    pub n: u8,
    pub m: u8,
    pub marks: [u8; Sheet::MAX_PATTERNS],
    pub values: [u8; Sheet::MAX_PATTERNS],
    pub limits: [u16; Sheet::MAX_PATTERNS],
    pub gate_count: u8,
    pub gates: [LogicGate; Sheet::MAX_GATES as usize],
    pub output_count: u8,
    pub signals: [u8; Sheet::MAX_OUTPUTS as usize],
}

impl Sheet {
    // The limits of a sheet (document 01, "Unit sheet", and document 02, E5), named once: tables, relations and stages take theirs from here.
    pub const MAX_INPUTS: u8 = 6;

    // Fewer on a board that shares selectors.
    pub const MAX_SHARED_INPUTS: u8 = 4;

    pub const MAX_WIRES: u8 = 4;

    pub const MAX_GATES: u8 = 32;

    pub const MAX_OUTPUTS: u8 = 8;

    // The patterns of so many inputs, and the values of so many wires.
    pub const MAX_PATTERNS: usize = 1 << Sheet::MAX_INPUTS;

    pub const MAX_VALUES: usize = 1 << Sheet::MAX_WIRES;

    // The wires as the length of an array.
    pub const WIRES: usize = Sheet::MAX_WIRES as usize;

    // A pattern's mark: it has neither 02 nor 03, it has a 02, it has a 03.
    pub const NO_MARK: u8 = 0;

    pub const ROW: u8 = 1;

    pub const DONT_CARE: u8 = 2;
}
