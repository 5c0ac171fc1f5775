// The parts of the monitor and their checks, each over the words of its part: rules, tables that remember something, reservations.
// A part is a slice whose length its functions require: as an array of its own it would come as a Result, whose other case would need an answer.
#![tactic(auto)]

pub mod goose_publisher;
pub mod goose_seq;
pub mod keys;
pub mod mms_rule;
pub mod rate;
pub mod reservation;
pub mod rules;
pub mod sv_publisher;
pub mod sv_seq;
pub mod time_field;
