// Lines such as `NAND 0XX 1XX`: a gate function and the classes of its pins, and the class that the gate's output has.
#![tactic(auto)]

pub mod fault;
pub mod line;

pub use fault::LineFault;
pub use line::class_of_line;
