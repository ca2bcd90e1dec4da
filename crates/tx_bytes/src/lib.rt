//! The outside of texd as traits, with objects of them in memory and over std.
//!
//! An object of the outside counts its failed calls, and a call answers Failed only where that count
//! rose in it. What an object holds is told by those in memory and not by the real ones.
#![tactic(auto)]

mod memory;
mod outside;
mod real;
mod values;

pub use memory::{LinkPlan, MemLink, MemPort, MemShelf, MemSink, MemSource};
pub use outside::{Bound, Gate, Knock, Link, Look, Port, Put, Shelf, Sink, Source, Told, Took};
pub use real::{NoGate, StdShelf, StdSink, StdSource};
pub use values::{Bytes, File, Files, Word};

#[cfg(test)]
mod tests;
