// The sampled-values frame: its fields, read into a frame, or by places.
#![tactic(auto)]

pub mod field;
pub mod places;
pub mod sv;
