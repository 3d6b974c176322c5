// Records over borrowed bytes, and the fault of reading them.
#![tactic(auto)]

pub mod fault;
pub mod reader;

pub use fault::RecordFault;
pub use reader::{Reader, Record};
