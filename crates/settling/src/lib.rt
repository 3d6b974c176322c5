// Settling: one row for each net of a circuit, and rest, which needs no settling.
#![tactic(auto)]

mod bounds;
pub mod fault;
mod gate_at;
mod gate_classes;
mod held_gate;
mod holding;
mod letter;
mod pin;
pub mod resting;
mod rows;
pub mod settling;
pub mod tables;

pub use fault::NoSuchInput;
pub use resting::rest;
pub use settling::settle;
pub use tables::Tables;
