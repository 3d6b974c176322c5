// What a wire does: three values, thirteen classes of waveforms.
#![tactic(auto)]

pub mod class;
pub mod fault;
pub mod three;

pub use class::Class;
pub use fault::{UnknownCode, UnknownLetters};
pub use three::Three;
