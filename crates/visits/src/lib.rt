// What a visit does before it splits (document 01, "Search", steps 2 to 4): the state that it charges, and the place to split.
// Inner functions: the crates `branches` and `search` meet what they require.
#![tactic(auto)]

pub mod states; // the state that is lent down
pub mod conflicts; // where to split: the first conflict
