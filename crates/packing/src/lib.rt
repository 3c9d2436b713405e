// Document 02, #107: a station with six sampling points keeps six problems and runs one at a time. Above `calls`, whose states it takes.
#![tactic(auto)]

mod check;
mod corner;
pub mod pack;
pub mod unpack;
