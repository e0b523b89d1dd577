// The pick for the board that shares selectors: the table whose nodes count for least between the two masks of a pair (table::picks).
// A table of four inputs has four quarters, its cofactors by inputs 1 and 2, and the bytes of the pair are their masks. Which selectors on inputs 1 and 2 a
// table needs is told by which of its quarters coincide. Quarters that coincide are a class, and each class takes its best quarter by itself: first by
// whether that needs a selector on input 3 which counts, then by its number. A line of input 1 or 2, soldered through, has constant quarters and is tried by
// itself. Below stand the literals of input 4, which all quarters share. The input counts for none and its inverse for a selector: so the masks are tried as
// they are, with that selector, and without it restricted so that no best quarter has the inverse. The least of all is the pick.
// Inner functions: the parts of a search meet what they require.
ghost use Rattle.std.specs.Prelude.{◌≡◌, ◌<◌, ◌≤◌, ◌+◌, ◌*◌, ◌^◌};
ghost use Rattle.sheet.specs.Limits.{max_shared_inputs};
ghost use Rattle.table.specs.Inner.Ranks.{pick_of, rank};
ghost use Rattle.table.specs.Inner.Blocks.{Covered};
ghost use Rattle.table.specs.Inner.Pairs.{zeros_in, ones_in};
ghost use Rattle.nodes.specs.Nodes.{nodes};
ghost use Rattle.nodes.specs.Inner.Tops.{Tops};
ghost use Rattle.nodes.specs.Inner.Ways.{quarter_entry_at, class_at, line_at, most_class, no_line, all_places, apart_at, half_at, class_in, line_in, four, halves_alike, tree_like, three_alike, crossed_alike, beside_alike, across_alike, way_of, no_inverted};

use table::picks::{
    BLOCK_SPACE, FOURTH_BYTE, LENT, NARROW_SPACE, NO_TABLE, ONE_SPACE, PLACES, THIRD_BYTE,
    THREE_SPACE,
};

// The best quarter of each pair of masks, at zeros * BLOCK_SPACE + ones: NODE where it needs a selector that counts, and the quarter four times side by side.
// Where some pattern is in no mask there is none: NO_TABLE selectors. What stands below a quarter is not counted. The places past the entries are
// the search's.
const TOPS: [u32; LENT] = [
    0x800000, 0x800000, 0x800000, 0x800000, 0x800000, 0x800000, 0x800000, 0x800000, 0x800000,
    0x800000, 0x800000, 0x800000, 0x800000, 0x800000, 0x800000, 0x00ffff, 0x800000, 0x800000,
    0x800000, 0x800000, 0x800000, 0x800000, 0x800000, 0x800000, 0x800000, 0x800000, 0x800000,
    0x800000, 0x800000, 0x800000, 0x01eeee, 0x00ffff, 0x800000, 0x800000, 0x800000, 0x800000,
    0x800000, 0x800000, 0x800000, 0x800000, 0x800000, 0x800000, 0x800000, 0x800000, 0x800000,
    0x01dddd, 0x800000, 0x00ffff, 0x800000, 0x800000, 0x800000, 0x800000, 0x800000, 0x800000,
    0x800000, 0x800000, 0x800000, 0x800000, 0x800000, 0x800000, 0x00cccc, 0x00cccc, 0x00cccc,
    0x00cccc, 0x800000, 0x800000, 0x800000, 0x800000, 0x800000, 0x800000, 0x800000, 0x800000,
    0x800000, 0x800000, 0x800000, 0x01bbbb, 0x800000, 0x800000, 0x800000, 0x00ffff, 0x800000,
    0x800000, 0x800000, 0x800000, 0x800000, 0x800000, 0x800000, 0x800000, 0x800000, 0x800000,
    0x00aaaa, 0x00aaaa, 0x800000, 0x800000, 0x00aaaa, 0x00aaaa, 0x800000, 0x800000, 0x800000,
    0x800000, 0x800000, 0x800000, 0x800000, 0x800000, 0x800000, 0x019999, 0x800000, 0x019999,
    0x800000, 0x019999, 0x800000, 0x00ffff, 0x800000, 0x800000, 0x800000, 0x800000, 0x800000,
    0x800000, 0x800000, 0x800000, 0x018888, 0x018888, 0x00aaaa, 0x00aaaa, 0x00cccc, 0x00cccc,
    0x00aaaa, 0x00aaaa, 0x800000, 0x800000, 0x800000, 0x800000, 0x800000, 0x800000, 0x800000,
    0x017777, 0x800000, 0x800000, 0x800000, 0x800000, 0x800000, 0x800000, 0x800000, 0x00ffff,
    0x800000, 0x800000, 0x800000, 0x800000, 0x800000, 0x800000, 0x016666, 0x016666, 0x800000,
    0x800000, 0x800000, 0x800000, 0x800000, 0x800000, 0x016666, 0x00ffff, 0x800000, 0x800000,
    0x800000, 0x800000, 0x800000, 0x005555, 0x800000, 0x005555, 0x800000, 0x800000, 0x800000,
    0x800000, 0x800000, 0x005555, 0x800000, 0x005555, 0x800000, 0x800000, 0x800000, 0x800000,
    0x014444, 0x005555, 0x014444, 0x005555, 0x800000, 0x800000, 0x800000, 0x800000, 0x00cccc,
    0x005555, 0x00cccc, 0x005555, 0x800000, 0x800000, 0x800000, 0x013333, 0x800000, 0x800000,
    0x800000, 0x013333, 0x800000, 0x800000, 0x800000, 0x013333, 0x800000, 0x800000, 0x800000,
    0x00ffff, 0x800000, 0x800000, 0x012222, 0x012222, 0x800000, 0x800000, 0x012222, 0x012222,
    0x800000, 0x800000, 0x00aaaa, 0x00aaaa, 0x800000, 0x800000, 0x00aaaa, 0x00aaaa, 0x800000,
    0x011111, 0x800000, 0x011111, 0x800000, 0x005555, 0x800000, 0x005555, 0x800000, 0x011111,
    0x800000, 0x011111, 0x800000, 0x005555, 0x800000, 0x005555, 0x000000, 0x000000, 0x000000,
    0x000000, 0x000000, 0x000000, 0x000000, 0x000000, 0x000000, 0x000000, 0x000000, 0x000000,
    0x000000, 0x000000, 0x000000, 0x000000, 0, 0, 0,
];

// A selector, in a rank.
const NODE: u32 = NARROW_SPACE;

// The quarters' places in a table: digits to the base BLOCK_SPACE.
const A: u32 = 1;

const B: u32 = BLOCK_SPACE;

const C: u32 = B * BLOCK_SPACE;

const D: u32 = C * BLOCK_SPACE;

// The bits of a rank that count selectors, and the greatest digit of a table.
const NODES: u32 = 0xffff0000;

const DIGIT: u32 = BLOCK_SPACE - 1;

// A line that does not suit: more than the rank of any table.
const NO_LINE: u32 = NO_TABLE * NODE;

// The seats of a pair but for the zeros of the odd patterns, where input 4 is 1.
const NOT_ODD_ZEROS: u32 = 0x5f5f5f5f;

// The inverse of input 4 occurs, or it does not.
const CHOICES: u32 = 2;

// More than any rank.
const NO_PICK: u32 = u32::MAX;

// A pair of three inputs twice, of two inputs four times, of one input eight times.
const TWICE: u32 = 1 + THIRD_BYTE;

const FOUR_TIMES: u32 = TWICE + PLACES * TWICE;

const EIGHT_TIMES: u32 = (1 + ONE_SPACE) * FOUR_TIMES;

// The table of the best quarters, to be lent to the functions below.
pub fn tops() -> [u32; LENT]
    ensures { Tops result }
{
    TOPS
}

// The best quarter between the masks in the lowest byte of `at`: an entry of the table.
fn quarter_entry(e: &[u32; LENT], at: u32) -> u32
    requires { Tops e.now }
    ensures { (result ≡ quarter_entry_at at) × (result ≤ most_class) }
{
    e[(at % PLACES) as usize]
}

// The same for the quarters of a class, at their places: these are cut out of the entry.
fn class(e: &[u32; LENT], at: u32, places: u32) -> u32
    requires { Tops e.now × (places ≤ all_places) }
    ensures { (result ≡ class_at at places) × (result ≤ most_class) }
{
    quarter_entry(e, at) & (NODES + places * DIGIT)
}

// Two classes, of masks x and y at the places i and j.
fn apart(e: &[u32; LENT], x: u32, y: u32, i: u32, j: u32) -> u32
    requires { Tops e.now × (i ≤ all_places) × (j ≤ all_places) }
    ensures { (result ≡ apart_at x y i j) × (result ≤ 2 * most_class) }
{
    class(e, x, i) + class(e, y, j)
}

// The line of an input, soldered through: constant 0 for the class of masks x, and constant 1 for that of masks y at the places j. The patterns that can be
// 0 stand in the upper half of the one byte, those that can be 1 in the lower half of the other, and all four are asked for in both.
fn line_rank(x: u32, y: u32, j: u32) -> u32
    requires { j ≤ all_places }
    ensures { (result ≡ line_at x y j) × (result ≤ no_line) }
{
    if (x / BLOCK_SPACE & y) % BLOCK_SPACE == DIGIT {
        j * DIGIT
    } else {
        NO_LINE
    }
}

// The two quarters of a half, of masks x and y at the places i and j: one class, a line, or two classes and a selector.
fn half(e: &[u32; LENT], x: u32, y: u32, i: u32, j: u32) -> u32
    requires { Tops e.now × (i + j ≤ all_places) }
    ensures { (result ≡ half_at x y i j) × (result ≤ most_class) }
{
    class(e, x & y, i + j)
        .min(line_rank(x, y, j))
        .min(NODE + apart(e, x, y, i, j))
}

// Equal halves: one class, a line, or two classes and a selector for both halves.
fn halves_alike(e: &[u32; LENT], a: u32, b: u32, c: u32, d: u32) -> u32
    requires { Tops e.now }
    ensures { (result ≡ halves_alike (class_in (four a b c d)) (line_in (four a b c d))) × (result ≤ most_class) }
{
    class(e, a & b & c & d, A + B + C + D)
        .min(line_rank(a & c, b & d, B + D))
        .min(NODE + apart(e, a & c, b & d, A + C, B + D))
}

// Halves that share no quarter.
fn tree_like(e: &[u32; LENT], a: u32, b: u32, c: u32, d: u32) -> u32
    requires { Tops e.now }
    ensures { result ≡ tree_like (class_in (four a b c d)) (line_in (four a b c d)) }
{
    NODE + half(e, a, b, A, B) + half(e, c, d, C, D)
}

// Three quarters alike: a selector for the half that has the fourth.
fn three_alike(e: &[u32; LENT], a: u32, b: u32, c: u32, d: u32) -> u32
    requires { Tops e.now }
    ensures { result ≡ three_alike (class_in (four a b c d)) }
{
    let x = apart(e, a & b & c, d, A + B + C, D).min(apart(e, a & b & d, c, A + B + D, C));
    let y = apart(e, a & c & d, b, A + C + D, B).min(apart(e, b & c & d, a, B + C + D, A));
    2 * NODE + x.min(y)
}

// The first quarter of one half is the second of the other.
fn crossed(e: &[u32; LENT], a: u32, b: u32, c: u32, d: u32) -> u32
    requires { Tops e.now }
    ensures { (result ≡ crossed_alike (class_in (four a b c d))) × (result ≤ 3 * most_class) }
{
    let ad = class(e, a & d, A + D);
    let bc = class(e, b & c, B + C);
    let first = ad + bc.min(apart(e, b, c, B, C));
    first.min(bc + apart(e, a, d, A, D))
}

// The halves have their first quarter in common, or their second.
fn beside(e: &[u32; LENT], a: u32, b: u32, c: u32, d: u32) -> u32
    requires { Tops e.now }
    ensures { (result ≡ beside_alike (class_in (four a b c d))) × (result ≤ 3 * most_class) }
{
    let first = class(e, a & c, A + C) + apart(e, b, d, B, D);
    first.min(class(e, b & d, B + D) + apart(e, a, c, A, C))
}

// A quarter of one half is a quarter of the other, and both halves need a selector.
fn across_alike(e: &[u32; LENT], a: u32, b: u32, c: u32, d: u32) -> u32
    requires { Tops e.now }
    ensures { result ≡ across_alike (class_in (four a b c d)) }
{
    3 * NODE + crossed(e, a, b, c, d).min(beside(e, a, b, c, d))
}

// The least over the fifteen ways in which the quarters of a pair coincide and over the lines, with no selectors on input 4 counted. Where both halves have
// the same masks, equal halves are the best: so it is with every pair of fewer than four inputs, repeated.
fn way(e: &[u32; LENT], pair: u32) -> u32
    requires { Tops e.now }
    ensures { (result ≡ way_of pair) × (result ≤ most_class) }
{
    let a = pair;
    let b = pair / PLACES;
    let c = pair / THIRD_BYTE;
    let d = pair / FOURTH_BYTE;
    let halves = halves_alike(e, a, b, c, d);
    if pair % THIRD_BYTE == c {
        return halves;
    }
    let first = line_rank(a & b, c & d, C + D);
    let three = three_alike(e, a, b, c, d);
    let across = across_alike(e, a, b, c, d);
    let tree = tree_like(e, a, b, c, d);
    halves.min(first).min(tree).min(three.min(across))
}

// The masks under which no best quarter has the inverse of input 4 as a half. That is 1 on the even pattern and 0 on the odd one: 0 on an odd pattern now asks
// for 0 on the even one beside it, and where that may stand, constant 0 is the better half.
fn no_inverted(pair: u32) -> u32
    ensures { result ≡ no_inverted pair }
{
    pair & ((pair << 1) | NOT_ODD_ZEROS)
}

// Four inputs: the least without the inverse of input 4 and with it, which is a selector. What counts for none is less than anything with that selector, so the
// second turn is for others alone. The two turns stand in a loop, so that the compiled pick stays a function of its own.
fn pick4(e: &[u32; LENT], pair: u32) -> u32
    requires { Tops e.now × Covered 4 (zeros_in pair) (ones_in pair) }
    ensures { result ≡ rank (nodes 4) (pick_of (nodes 4) 4 (zeros_in pair) (ones_in pair)) }
{
    let mut masks = no_inverted(pair);
    let mut best = NO_PICK;
    for inverses in 0..CHOICES {
        let x = way(e, masks);
        best = best.min(x + inverses * NODE);
        if best < NODE {
            return best;
        }
        masks = pair;
    }
    best
}

// The rank of the pick between the two masks of a pair, among the tables of n inputs. Fewer than four inputs are looked up as four: the masks of a pair
// repeated have the pick repeated.
pub fn pick_shared(e: &[u32; LENT], n: u8, pair: u32) -> u32
    requires { Tops e.now × (1 ≤ n) × (n ≤ max_shared_inputs) × (zeros_in pair < 2 ^ (2 ^ n)) × (ones_in pair < 2 ^ (2 ^ n))
        × Covered n (zeros_in pair) (ones_in pair) }
    ensures { result ≡ rank (nodes n) (pick_of (nodes n) n (zeros_in pair) (ones_in pair)) }
{
    match n {
        1 => {
            let x = pick4(e, pair * EIGHT_TIMES);
            x / NARROW_SPACE * NARROW_SPACE + x % ONE_SPACE
        }
        2 => {
            let x = pick4(e, pair * FOUR_TIMES);
            x / NARROW_SPACE * NARROW_SPACE + x % BLOCK_SPACE
        }
        3 => {
            let x = pick4(e, pair * TWICE);
            x / NARROW_SPACE * NARROW_SPACE + x % THREE_SPACE
        }
        _ => pick4(e, pair),
    }
}
