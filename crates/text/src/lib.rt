// Numbers and doubles as text in lent byte buffers, for the programs. No public function has a requirement: what does not read is
// `None`, and what does not fit is not written. Each contract is one equation with a definition in `specs/`, so that a program is left with
// little to believe; beside it a `Page` keeps its buffer. Assumes nothing.
#![tactic(auto)]

pub mod digit;
pub mod double;
pub mod put;
pub mod read;
