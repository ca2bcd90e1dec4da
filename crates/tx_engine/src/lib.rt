//! A session's engine: one region after another by ticks, and the way back from a region that fails. It takes no handle
//! and knows no store: what it needs of names and lists it asks for.
//!
//! `specs/Agreement` says which readings of the numbers agree with what the session knows and holds, and
//! `specs/Standing` what an engine stands for, however its numbers are read.
#![tactic(auto)]

mod answers;
mod behind;
mod engine;
mod laws;
mod step;
mod tick;

pub use engine::{Engine, Phase};
pub use step::{Back, End, Step};
