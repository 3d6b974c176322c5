// The circuit file: circuits and gates, and why a file is refused.
#![tactic(auto)]

pub mod circuit;
pub mod fault;
pub mod gate;
pub mod kind;

pub use circuit::Circuit;
pub use fault::CircuitFault;
pub use gate::{Gate, Net};
pub use kind::{Kind, UnknownKind};
