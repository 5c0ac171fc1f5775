// The lowest crate of the IEC 61850 monitor: numbers and enums, alerts, results, verdicts, frames, schedule, hash, bucket, names, octets.
#![tactic(auto)]

pub mod alert;
pub mod bucket;
pub mod counter;
pub mod error;
pub mod frame;
pub mod hash;
pub mod name;
pub mod octets;
pub mod result;
pub mod schedule;
pub mod service;
pub mod verdict;
