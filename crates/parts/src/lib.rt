// What the search carries of a part (subrelation): for each wire the two masks of its projection, and its pick with its cells.
// A split changes the set of one pattern: the masks lose at most that pattern, and a pick whose bit there still occurs is still the pick, since it is
// the least over more tables.
// Inner functions: the search meets what they require (`search_sets`, the first answer and `split`).
#![tactic(auto)]

pub mod boards; // a board and its inputs as one number
pub mod pairs; // the two masks of a wire, in one number for each section of patterns
pub mod masks; // these numbers in halves, and the rows of all wires' halves
pub mod cells; // the cells of all wires in one number
pub mod states; // what stands where in the state of the search
pub mod picks; // the picks between the masks
