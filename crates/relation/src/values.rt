// Sets of wire values (output vertices) as numbers: a value's own bit says that it is there.
// Inner functions: the search and the audit meet what they require, wires, bits and values that there are.
ghost use Rattle.std.specs.Prelude.{◌≡◌, ◌<◌};
ghost use Rattle.sheet.specs.Limits.{max_wires, max_values};
ghost use Rattle.relation.specs.Tests.{occurs, is_open};
ghost use Rattle.relation.specs.Inner.Members.{member, with_bit};

use table::columns::column;

// The values of a set that have wire j at b.
pub fn with_bit(set: u16, j: u8, b: u8) -> u16
    requires { (j < max_wires) × (b < 2) }
    ensures { result ≡ with_bit set j b }
{
    set & column(j, b)
}

// Whether some value of a set has wire j at b: the projection on the wire.
pub fn has(set: u16, j: u8, b: u8) -> bool
    requires { (j < max_wires) × (b < 2) }
    ensures { result ≡ occurs max_wires (member set) j b }
{
    with_bit(set, j, b) != 0
}

// Whether wire j is open in a set: both bits occur.
pub fn is_open(set: u16, j: u8) -> bool
    requires { j < max_wires }
    ensures { result ≡ is_open max_wires (member set) j }
{
    has(set, j, 0) && has(set, j, 1)
}

// Whether a value is in a set.
pub fn contains(set: u16, v: u8) -> bool
    requires { v < max_values }
    ensures { result ≡ member set v }
{
    (set >> v) % 2 == 1
}
