// Document 01's job sheet: its fields, its working by the crates below, and the lines that `fitstep` prints.
#![tactic(auto)]

pub mod answer;
mod check;
mod head;
pub mod job;
pub mod lines;
mod number;
mod put;
mod seek;
mod sized;
