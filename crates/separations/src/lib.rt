// Separations between inputs: which are held, and the exact test whether one more would contradict them.
#![tactic(auto)]

mod check;
pub mod examples;
pub mod fault;
pub mod inputs;
pub mod table;

pub use fault::SeparationFault;
pub use inputs::input;
pub use table::{Iter, Separations};
