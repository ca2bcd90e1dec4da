//! Regions, sessions and preambles: from the bytes of a session's input to the bytes of its replies.
#![tactic(auto)]

mod frozen;
mod once;
mod region;

pub use frozen::{PreFault, preamble};
pub use once::{Run, run_once};
pub use region::run_region;
