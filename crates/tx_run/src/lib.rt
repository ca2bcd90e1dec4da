//! A region that runs by ticks: the readings that are open, one within another, and what is about to be done. It takes
//! no handle and knows no store: what it needs of names and lists it asks for.
//!
//! `specs/Runs` says how the region goes on from a run, by the definitions (`Means`). However it goes on from after a
//! tick, so it goes on from before it (`Leads`); at the end stands what the definitions give.
#![tactic(auto)]

mod answers;
mod assigning;
mod carry;
mod conclude;
mod doing;
mod effects;
mod ending;
mod fail;
mod frames;
mod gives;
mod grouping;
mod laws;
mod op;
mod run;
mod senses;
mod texts;
mod took;
mod wish;
mod works;

pub use doing::{Doing, Start, Stored, Taker, Told, Use};
pub use op::{Op, Tick};
pub use run::Run;
pub use senses::pooled;
