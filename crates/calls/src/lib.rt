// The calls of document 01 with 02, #108: a state with a mark for each column. Each stands on the call of the same name that knows no marks:
// with no mark set it is that call; else that call on the problem without the frozen columns.
#![tactic(auto)]

pub mod above;
pub mod check;
pub mod cholesky;
pub mod least_squares;
mod lent;
pub mod measure;
pub mod pivoted_qr;
mod room;
pub mod state;
pub mod trust_region;
pub mod update_diag;
mod widen;
