// The values that have a bit. Inner: its callers name a wire that there is, and a bit.
ghost use Rattle.std.specs.Prelude.{◌≡◌, ◌<◌};
ghost use Rattle.sheet.specs.Limits.{max_wires};
ghost use Rattle.table.specs.Inner.Columns.{column_of};

// The values that have wire j at b, as a set.
pub fn column(j: u8, b: u8) -> u16
    requires { (j < max_wires) × (b < 2) }
    ensures { result ≡ column_of j b }
{
    let at = 2 * j + b;
    match at {
        0 => 0x5555,
        1 => 0xaaaa,
        2 => 0x3333,
        3 => 0xcccc,
        4 => 0x0f0f,
        5 => 0xf0f0,
        6 => 0x00ff,
        _ => 0xff00,
    }
}
