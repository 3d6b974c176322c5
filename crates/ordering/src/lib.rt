// Order sources: what is known of the order of two nets' flips.
#![tactic(auto)]

pub mod asking;
pub mod chain;
pub mod from_rows;
mod rows;
pub mod same_input;
pub mod silent;
pub mod source;
pub mod spaced;
pub mod stem;

pub use asking::ordered;
pub use chain::Chain;
pub use from_rows::FromRows;
pub use same_input::SameInput;
pub use silent::Silent;
pub use source::OrderSource;
pub use spaced::Spaced;
pub use stem::Stem;
