// The written search (document 01, "Search") and its promise. Its code is the crate `search`; here stands what both speak of.
#![tactic(auto)]

use sheet::Sheet;

// The best so far (incumbent), the visits charged (nodes expanded), and whether a part was left.
#[derive(Clone, Copy)]
pub struct State {
    pub tables: [u64; Sheet::WIRES],
    pub cells: u32,
    pub visits: u32,
    pub stopped: bool,
}
