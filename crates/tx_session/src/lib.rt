//! A session's regions over a store of names and lists.
#![tactic(auto)]

mod answer;
mod begin;
mod laws;
mod region;
#[cfg(test)]
mod tests;

pub use begin::begin_session;
pub use laws::has_reading;
pub use region::run_region;
