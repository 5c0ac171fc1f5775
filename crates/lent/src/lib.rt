// Inspections of frames that a host lends as the octets of their C structs: no frame is built in between.
#![tactic(auto)]

pub mod goose;
pub mod mms;
pub mod octets;
pub mod raw;
pub mod sv;
