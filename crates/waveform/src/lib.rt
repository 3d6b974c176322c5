// What a gate makes of its pins: one evaluation for every switching algebra, the three values and the thirteen classes among them.
#![tactic(auto)]

pub mod algebra;
pub mod evaluation;
pub mod theorems;

pub use algebra::SwitchingAlgebra;
pub use evaluation::evaluate;
pub use theorems::{classes_ignore_delay, control_values_fix_outputs, gate_examples_hold};
