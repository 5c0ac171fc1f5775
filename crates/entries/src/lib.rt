// Every entry by value: the monitor in and out, and the table of SV streams by itself.
#![tactic(auto)]

pub mod iec61850_monitor;
pub mod sv_seq;
