// Module 6 of document 01: the gradient's measure, the norm of Jx, the scaling; and determined and the rank, which are added by us. Above
// `factor`, whose tests and parts it calls, and beside the search.
#![tactic(auto)]

pub mod above;
pub mod gradient;
pub mod measures;
mod problem;
pub mod scaling;
pub mod update_diag;
