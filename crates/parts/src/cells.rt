// The cells of all wires in one number: a byte for each wire.
// Inner functions: the picks and the search meet what they require.
ghost use Rattle.std.specs.Prelude.{◌≡◌, ◌<◌, ◌^◌};
ghost use Rattle.sheet.specs.Limits.{max_wires};
ghost use Rattle.parts.specs.Inner.Cells.{cell_space, byte_in, put_cells, cells_sum};

// The bits of a byte, and above the cells of any board's wires together: a byte has room for them.
const BYTE: u8 = 8;

const CELL_SPACE: u64 = 1 << BYTE;

// A byte with all its bits.
const FULL: u64 = CELL_SPACE - 1;

// What the lowest bit of the cells of wires 1, 2 and 3 counts for.
pub const CELLS_1: u64 = CELL_SPACE;

const CELLS_2: u64 = CELLS_1 * CELL_SPACE;

const CELLS_3: u64 = CELLS_2 * CELL_SPACE;

// One in each wire's byte.
const EACH: u64 = 1 + CELLS_1 + CELLS_2 + CELLS_3;

// The cells once wire j has k.
pub fn put_cells(cells: u64, j: u8, k: u32) -> u64
    requires { (j < max_wires) × (k < cell_space) }
    ensures { result ≡ put_cells cells j k }
{
    let at = BYTE * j;
    cells - (cells & (FULL << at)) + ((k as u64) << at)
}

// All wires' cells together: the product has their sum in the byte of the last wire, and no byte below it runs over.
pub fn sum_of(cells: u64) -> u32
    requires { (cells < cell_space ^ max_wires) × (cells_sum cells < cell_space) }
    ensures { (result ≡ cells_sum cells) × (result < cell_space) }
{
    (cells * EACH / CELLS_3 % CELL_SPACE) as u32
}

// The first wire's cells.
pub fn first_of(cells: u64) -> u32
    ensures { result ≡ byte_in cells 0 }
{
    (cells % CELL_SPACE) as u32
}
