// The scripts of `replay`: lines into calls and their arguments, and these into frames. docs/SCRIPT.md says how lines are written.
#![tactic(auto)]

pub mod arguments;
pub mod calls;
pub mod frames;
pub mod input;
pub mod line;
mod store;
