// The monitor for a recorder that is written in C, Rust or Python: its calls as C exports, over numbers, slices and structs of numbers,
// each in place and most of them by value too. Their C declarations stand in include/mokyndu.h.
#![tactic(auto)]

pub mod flag;
pub mod frame;
pub mod in_place;
pub mod inspect;
pub mod result;
pub mod setting;
