// Lines of words, for the programs: taken out of what was read, scanned, and put into a lent buffer. No public function has a
// requirement: a place past the end reads as 0, which is no digit and no space, and what does not fit is not written. Each contract is
// one equation with a definition in `specs/`; beside it `Part` says that `&xs[..n]` at the answer is within the slice, and a
// `Page` keeps its buffer. Assumes nothing.
#![tactic(auto)]

pub mod feed;
pub mod part;
pub mod put;
pub mod scan;
