// Lines such as `0 1 -5`: two inputs and a spacing in ticks.
#![tactic(auto)]

pub mod fault;
pub mod line;

pub use fault::LineFault;
pub use line::Line;
