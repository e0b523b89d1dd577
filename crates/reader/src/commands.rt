// The reader of a unit sheet, by value: one call reads one command and gives the reader that stands behind it.
ghost use Rattle.std.specs.Prelude.{◌≡◌, ◌+◌, ◌*◌, ◌^◌, [], ◌||◌};
ghost use Rattle.reader.specs.Inner.Widths.{width_known};
ghost use Rattle.reader.specs.Reader.{command_of, is_out_of_turn, is_out_of_range, reader_at, moved_past, next_of};
ghost use Rattle.sheet.specs.Limits.{is_beyond};

use crate::Reader;
use base::Refusal;
use sheet::limits::{beyond, bits_past, sizes_out};
use sheet::{Command, Sheet};

// The bytes of a command, its first included; none for an unknown first byte.
fn width(b: u8) -> Option<usize>
    ensures { result ≡ width_known b }
{
    match b {
        0x00 => Some(1),
        0x01 => Some(3),
        0x02 => Some(3),
        0x03 => Some(2),
        0x04 => Some(4),
        0x05 => Some(2),
        0x06 => Some(4),
        _ => None,
    }
}

// Two bytes as one number, the lower first.
fn word(low: u8, high: u8) -> u16
    ensures { result ≡ low + 256 * high }
{
    u16::from_le_bytes([low, high])
}

// The command with a known first byte b and operands x, y, z, as many as it has.
fn command(b: u8, x: u8, y: u8, z: u8) -> Command
    ensures { result ≡ command_of b x y z }
{
    match b {
        0x00 => Command::End,
        0x01 => Command::Sizes { n: x, m: y },
        0x02 => Command::Row { p: x, v: y },
        0x03 => Command::DontCare { p: x },
        0x04 => Command::Gate {
            kind: x,
            a: y,
            b: z,
        },
        0x05 => Command::Output { s: x },
        _ => Command::Limit {
            p: x,
            set: word(y, z),
        },
    }
}

// A pattern or a value outside its range.
fn row_out(n: u8, m: u8, p: u8, v: u8) -> bool
    ensures { result ≡ is_beyond n p || is_beyond m v }
{
    beyond(n, p as u16) || beyond(m, v as u16)
}

// A pattern or a set outside its range.
fn limit_out(n: u8, m: u8, p: u8, set: u16) -> bool
    ensures { result ≡ is_beyond n p || is_beyond (2 ^ m) set }
{
    beyond(n, p as u16) || bits_past(m, set)
}

impl Reader {
    pub const LAST_KIND: u8 = 5;

    pub fn new() -> Self
        ensures { result ≡ reader_at 0 [] }
    {
        Reader {
            at: 0,
            started: false,
            n: 0,
            m: 0,
        }
    }

    // 01 anywhere but at the start, or another command there.
    fn out_of_turn(self, b: u8) -> bool
        ensures { result ≡ is_out_of_turn self.started b }
    {
        if b == 0x01 {
            self.started
        } else {
            !self.started
        }
    }

    // Some operand too small or too large.
    fn out_of_range(self, c: Command) -> bool
        ensures { result ≡ is_out_of_range self.n self.m c }
    {
        match c {
            Command::End => false,
            Command::Sizes { n, m } => sizes_out(Sheet::MAX_INPUTS, n, m),
            Command::Row { p, v } => row_out(self.n, self.m, p, v),
            Command::DontCare { p } => beyond(self.n, p as u16),
            Command::Gate { kind, a: _, b: _ } => Self::LAST_KIND < kind,
            Command::Output { s: _ } => false,
            Command::Limit { p, set } => limit_out(self.n, self.m, p, set),
        }
    }

    // Past a command, with the sizes that it names.
    fn moved_past(mut self, c: Command, to: usize) -> Reader
        ensures { result ≡ moved_past self c to }
    {
        self.at = to;
        if let Command::Sizes { n, m } = c {
            self.started = true;
            self.n = n;
            self.m = m;
        }
        self
    }

    // One command: 1 where the bytes are spent, then the tests of document 01's "Refusals" in their order.
    pub fn next(self, s: &[u8]) -> Result<(Command, Reader), Refusal>
        ensures { result ≡ next_of s.now self }
    {
        let at = self.at;
        if s.len() <= at {
            return Err(Refusal::at(Refusal::CUT_SHORT, at));
        }
        let b = s[at];
        let Some(w) = width(b) else {
            return Err(Refusal::at(Refusal::UNKNOWN, at));
        };
        if self.out_of_turn(b) {
            return Err(Refusal::at(Refusal::OUT_OF_TURN, at));
        }
        if s.len() - at < w {
            return Err(Refusal::at(Refusal::CUT_SHORT, at));
        }
        let c = command(
            b,
            base::byte_at(s, at + 1),
            base::byte_at(s, at + 2),
            base::byte_at(s, at + 3),
        );
        if self.out_of_range(c) {
            return Err(Refusal::at(Refusal::OUT_OF_RANGE, at));
        }
        Ok((c, self.moved_past(c, at + w)))
    }
}
