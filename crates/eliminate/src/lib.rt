// Document 01, module 5: a diagonal is eliminated against R, on a square. Below `factor`, which lends it the square of its store.
#![tactic(auto)]

mod eliminate;
mod elimination;
pub mod square;
