// Cells of a table: the selectors of the reduced ordered decision tree of its function, but for those that are soldered through (document 02, E4).
// No other function calls these now: the search has its cells from the picks, and the writer counts selectors. They stand in the form that document 01 names.
ghost use Rattle.std.specs.Prelude.{◌≡◌, ◌<◌, ◌≤◌, ◌^◌};
ghost use Rattle.table.specs.Cells.{cells};
ghost use Rattle.table.specs.Inner.Pairs.{narrow_inputs};

use crate::picks::THREE_SPACE;

// The tables of three inputs are the numbers below this.
const SPACE: u16 = THREE_SPACE as u16;

// Times this a table of two inputs stands twice in one of three, and one of one input four times.
const TWICE: u16 = 0x11;

const FOUR_TIMES: u16 = 0x55;

// The table of four inputs that is the first of them.
pub const INPUT_ONE: u16 = 0xff00;

// The cells of every three-input function, at the function's table.
const CELLS: [u8; THREE_SPACE as usize] = [
    0, 3, 2, 2, 3, 2, 3, 3, 2, 3, 1, 2, 1, 3, 2, 1, 3, 2, 4, 4, 5, 4, 5, 5, 4, 5, 3, 4, 3, 5, 4, 3,
    2, 4, 1, 3, 4, 3, 4, 4, 3, 4, 2, 3, 2, 4, 3, 2, 2, 4, 3, 1, 4, 3, 4, 4, 3, 4, 2, 3, 2, 4, 3, 2,
    3, 5, 4, 4, 2, 4, 5, 5, 4, 5, 3, 4, 3, 5, 4, 3, 2, 4, 3, 3, 4, 1, 4, 4, 3, 4, 2, 3, 2, 4, 3, 2,
    3, 5, 4, 4, 5, 4, 2, 5, 4, 5, 3, 4, 3, 5, 4, 3, 3, 5, 4, 4, 5, 4, 5, 2, 4, 5, 3, 4, 3, 5, 4, 3,
    2, 4, 3, 3, 4, 3, 4, 4, 1, 4, 2, 3, 2, 4, 3, 2, 3, 5, 4, 4, 5, 4, 5, 5, 4, 2, 3, 4, 3, 5, 4, 3,
    1, 3, 2, 2, 3, 2, 3, 3, 2, 3, 0, 2, 1, 3, 2, 1, 2, 4, 3, 3, 4, 3, 4, 4, 3, 4, 2, 1, 2, 4, 3, 2,
    1, 3, 2, 2, 3, 2, 3, 3, 2, 3, 1, 2, 0, 3, 2, 1, 3, 5, 4, 4, 5, 4, 5, 5, 4, 5, 3, 4, 3, 2, 4, 3,
    2, 4, 3, 3, 4, 3, 4, 4, 3, 4, 2, 3, 2, 4, 1, 2, 0, 3, 2, 2, 3, 2, 3, 3, 2, 3, 1, 2, 1, 3, 2, 0,
];

// The cells of a table of three inputs.
pub fn count8(t: u8) -> u8
    ensures { result ≡ cells 3 t }
{
    CELLS[t as usize]
}

// The cells of a table of one to four inputs, and no more. Four inputs take two look-ups, one for each half, and none where the table is input 1, whose line
// is soldered through; a smaller table is repeated up to three inputs, which adds no cell. An inner function: who calls it has tested the size and the table.
pub fn count(n: u8, t: u16) -> u8
    requires { (1 ≤ n) × (n ≤ narrow_inputs) × (t < 2 ^ (2 ^ n)) }
    ensures { result ≡ cells n t }
{
    if n == 1 {
        return count8((t * FOUR_TIMES % SPACE) as u8);
    }
    if n == 2 {
        return count8((t * TWICE % SPACE) as u8);
    }
    let low = (t % SPACE) as u8;
    if n == 3 {
        return count8(low);
    }
    let high = (t / SPACE % SPACE) as u8;
    if low == high {
        return count8(low);
    }
    if t == INPUT_ONE {
        return 0;
    }
    1 + count8(low) + count8(high)
}
