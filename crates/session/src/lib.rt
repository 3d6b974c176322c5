// One session: from the bytes of the input to the lines that are printed.
#![tactic(auto)]

pub mod line;

pub use line::Line;
