// The answers to the calls of a script, as lines of text. docs/SCRIPT.md says how they are written.
#![tactic(auto)]

mod frame;
pub mod names;
pub mod queries;
pub mod refusal;
pub mod result;
pub mod totals;
