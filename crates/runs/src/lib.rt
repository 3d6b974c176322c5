// Runs of a circuit, and rows: what is known of a net in every run.
#![tactic(auto)]

pub mod gate;
pub mod row;
pub mod run;

pub use gate::gate_of;
pub use row::{Bounds, Row, join_bounds};
pub use run::{run_exists_and_is_unique, run_exists_for_inputs, waves_of_a_run_rise};
