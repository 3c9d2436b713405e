// Module 1 of document 01: the leaf rules. Each operation on floats is rounded once and none is fused. Document 01 does not list copies,
// fills, counts and the tests on sizes and slices: they stand here because every later module needs them, with contracts like the others.
#![tactic(auto)]

pub mod lent;
pub mod norm;
pub mod number;
pub mod pieces;
pub mod reply;
pub mod root;
pub mod sizes;
pub mod triangle;
pub mod vector;
