// The monitor as one array of words.
#![tactic(auto)]

pub mod parts;
pub mod reset;
pub mod settings;
pub mod totals;
