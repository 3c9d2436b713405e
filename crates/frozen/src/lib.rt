// Document 02, #108: columns that are frozen. A call works on the free columns alone; here are the marks, and the way there and back.
#![tactic(auto)]

pub mod columns;
pub mod marks;
pub mod moved;
pub mod narrow;
