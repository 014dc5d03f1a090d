// The calls by value: what lies under `Machine::feed` and `Machine::stack`, with the lists by value. For programs and exports.
#![tactic(auto)]

pub mod reading;
pub mod running;
