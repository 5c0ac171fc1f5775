// The inspections of MMS requests, GOOSE messages and sampled values on a monitor's words.
#![tactic(auto)]

pub mod address;
pub mod clock;
pub mod hijack;
pub mod inspect_goose;
pub mod inspect_mms;
pub mod inspect_sv;
pub mod report;
