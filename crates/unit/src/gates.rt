// The soldered second stage for all wire values at once: a signal is one word, whose bit v is the signal for value v (bit-parallel simulation).
ghost use Rattle.std.specs.Prelude.{◌≡◌, ℕ, ◌<◌, ◌≤◌, get_or};
ghost use Rattle.sheet.specs.Limits.{max_wires, max_values};
ghost use Rattle.table.specs.Bits.{bit};
ghost use Rattle.reader.specs.Reader.{last_kind};
ghost use Rattle.reader.specs.Inner.WasRead.{WasRead};
ghost use Rattle.unit.specs.Gates.{gate_bit};
ghost use Rattle.unit.specs.Inner.Forming.{SignalWords, OutputWords};

use reader::Reader;
use sheet::Sheet;
use table::columns::column;

// Room for a signal of each wire and of each gate.
const MAX_SIGNALS: usize = Sheet::WIRES + Sheet::MAX_GATES as usize;

// The first half of the kinds are AND, OR and XOR; the second half are the same inverted.
const KINDS: u8 = Reader::LAST_KIND + 1;

const PLAIN_KINDS: u8 = KINDS / 2;

// A one for every value.
pub(crate) const ALL_VALUES: u16 = ((1u32 << Sheet::MAX_VALUES) - 1) as u16;

// What a gate of a kind makes of two signals (document 02, E3). Modulo 2, AND is the product of two bits, XOR their sum, OR the sum and the product together,
// and inverting adds 1 (the algebraic normal form of a gate). So every gate is the same three terms, and the kind says by arithmetic how often each is taken: the
// sum 0, 1, 1 times for AND, OR, XOR, the product 1, 1, 0 times. The remainder by the kinds keeps the third term within a word for any kind.
fn gate_word(kind: u8, a: u16, b: u16) -> u16
    ensures { kind ≤ last_kind → (v : ℕ) → v < max_values → bit result v ≡ gate_bit kind (bit a v) (bit b v) }
{
    let plain = (kind % PLAIN_KINDS) as u16;
    let sums = (plain + 1) / 2;
    let products = 1 - plain / 2;
    let ones = (kind % KINDS / PLAIN_KINDS) as u16;
    (sums * (a ^ b)) ^ (products * (a & b)) ^ (ones * ALL_VALUES)
}

// The wires' signals. All that a sheet may have are there, four of them; those past the last wire give way to gates.
fn wire_words() -> [u16; MAX_SIGNALS]
    ensures { (j v : ℕ) → j < max_wires → v < max_values → bit (get_or result j 0) v ≡ bit v j }
{
    let mut signals = [0; MAX_SIGNALS];
    signals[0] = column(0, 1);
    signals[1] = column(1, 1);
    signals[2] = column(2, 1);
    signals[3] = column(3, 1);
    signals
}

// The signals: the wires, and after them the gates as they come. `form` has the sheet from its reader.
fn signal_words(sheet: Sheet) -> [u16; MAX_SIGNALS]
    requires { WasRead sheet }
    ensures { (h : WasRead sheet) → SignalWords h.commands result }
{
    let m = sheet.m;
    let gates = sheet.gates;
    let mut signals = wire_words();
    for i in 0..sheet.gate_count {
        let gate = gates[i as usize];
        let a = signals[gate.left as usize];
        let b = signals[gate.right as usize];
        signals[(m + i) as usize] = gate_word(gate.kind, a, b);
    }
    signals
}

// The outputs; past the last one words of 0, which are the same for any two values. `form` has the sheet from its reader.
pub(crate) fn output_words(sheet: Sheet) -> [u16; Sheet::MAX_OUTPUTS as usize]
    requires { WasRead sheet }
    ensures { (h : WasRead sheet) → OutputWords h.commands result }
{
    let numbers = sheet.signals;
    let signals = signal_words(sheet);
    let mut words = [0; Sheet::MAX_OUTPUTS as usize];
    for i in 0..sheet.output_count {
        let at = i as usize;
        words[at] = signals[numbers[at] as usize];
    }
    words
}
