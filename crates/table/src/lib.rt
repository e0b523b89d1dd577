// Truth tables of one wire: their cells, and the table of fewest cells between two masks.
#![tactic(auto)]

pub mod cell_counts; // the cells of a table
pub mod picks; // the table of fewest cells between two masks
pub mod columns; // the values that have a bit
pub mod tables; // the constant, and the range of a table
pub mod wide; // the same of five and of six inputs
