// The eight gate functions: codes, names, truth, control values and pin counts.
#![tactic(auto)]

pub mod fault;
pub mod function;

pub use fault::{UnknownCode, UnknownName};
pub use function::Function;
