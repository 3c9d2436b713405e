// Document 01, modules 2 and 3: the pivoted reduction of a Jacobian and its residuals, on a bench. Below `factor`, which lays it out.
#![tactic(auto)]

mod beginning;
pub mod bench;
mod pivoted;
mod reduce;
mod reflect;
