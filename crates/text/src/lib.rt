// Lines of text: the words of a line and what they say, and what is put into one.
#![tactic(auto)]

pub mod put;
pub mod values;
pub mod words;
