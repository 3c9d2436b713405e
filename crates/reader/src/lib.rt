// Document 01, 'What must change shape': the reader that borrows its square.
#![tactic(auto)]

pub mod reader;
