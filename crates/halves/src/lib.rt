// What a split makes of each of its two parts: the masks of its pattern's row are cut, and the picks that no longer fit are made again, as long as the cells of all wires stay
// below the best so far. All wires are looked at in one step, with no branch: what occurs is not to be foretold.
// Inner functions: the cycle of the search meets what they require.
#![tactic(auto)]

pub mod remaking; // the picks that no longer fit, made again
pub mod tables; // the tables of the part at hand, and where to look for its conflicts

// The picks of a part: their tables on the first section, and their cells.
#[derive(Clone, Copy)]
pub struct Picks {
    pub low: u64,
    pub cells: u64,
}
