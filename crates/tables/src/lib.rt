// Tables of sixteen entries as words: one component for streams, clocks, buckets and reservations.
#![tactic(auto)]

pub mod column;
pub mod key;
pub mod named;
pub mod numbered;
pub mod order;
pub mod place;
