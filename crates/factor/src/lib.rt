// Modules 2 to 5 of document 01: state, rooms and tests; factoring, the solves, the held calls; and the workings that a search asks for.
#![tactic(auto)]

pub mod check;
pub mod cholesky;
mod factor;
pub mod filled;
mod held;
mod holding;
mod laying;
pub mod least_squares;
pub mod parts;
pub mod pivot_order;
pub mod pivoted_qr;
mod room;
mod solve;
pub mod state;
mod store;
