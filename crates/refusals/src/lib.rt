// What an input is refused with: the one refusal of all layers.
#![tactic(auto)]

pub mod refusal;

pub use refusal::{Layer, Refusal};
