// Module 7 of document 01. "The search may rely only on what the solves promise": it stands on the workings of `factor::pivot_order` and on
// leaves, by their contracts. `damped` leaves L in the store, and `empty`, called once whatever the end is, leaves it as document 01 says
// of a search; between the two nobody sees it.
#![tactic(auto)]

mod bounds;
mod check;
mod lent;
mod slopes;
mod steps;
mod trials;
pub mod trust_region;
mod vectors;

#[derive(Clone, Copy)]
pub struct LMParameter {
    pub lambda: f64,
    pub dp_norm: f64,
    pub trials: usize,
}
