// The theory of settling: what the rows mean and that they are true in every run.
#![tactic(auto)]

pub mod examples;
pub mod rest;
pub mod rows;

pub use examples::twelve_examples_hold;
pub use rest::{
    rest_holds_in_every_run, rest_is_letters_for_a_source, rest_is_letters_where_met,
    run_exists_for_a_source, run_exists_where_met,
};
pub use rows::{
    rows_by_a_source_mean, settled_bounds_fit, settled_rows_agree, settled_rows_are_exact,
    settled_rows_are_true, settled_rows_mean,
};
