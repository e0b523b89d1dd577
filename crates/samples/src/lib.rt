// The drawn cases: the records that the trials' program reads, and the parts of its replies that the report does not have.
#![tactic(auto)]

pub mod records; // the input
pub mod lines; // parts of reply lines
