//! Open readings: what each is in the middle of its work, and what a token or a value makes of it.
//!
//! Nothing here touches the pending input or what is assigned: an answer says what the reading does next, and which
//! tokens are put in front before that. Whoever keeps the open readings carries it out. The names and the lists in an
//! answer are those of what it was made of: where they are known there, they are known in it (`specs/Knowledge`).
#![tactic(auto)]

mod answer;
mod dispatch;
mod expansion;
mod frame;
mod list;
mod list_place;
mod numbers;
mod quantity;
mod reading;
mod scan;
mod simple;
mod text;
mod value;

pub use answer::{Answer, Print, Work};
pub use dispatch::{begin, feed};
pub use expansion::expand;
pub use frame::{Frame, ListStage, Stage, Text, Wish};
pub use numbers::numbered;
pub use reading::{Reading, TextKind};
pub use scan::feed_letter;
pub use simple::{is_equals, is_skipped, is_space};
pub use value::{Item, Value};

#[cfg(test)]
mod tests;
