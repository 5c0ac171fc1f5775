// What frame formats share: numbers in octets, X.690 elements, and the Ethernet header.
#![tactic(auto)]

pub mod element;
pub mod header;
pub mod number;
pub mod reader;
