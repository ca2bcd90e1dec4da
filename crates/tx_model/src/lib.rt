//! The definitions of texd: what a private TeX does with a region, in TeX's own terms.
//!
//! `specs/` has the definitions, a file a topic; `proofs/` the lemmas that the crates above use. The
//! enums here are those that definitions and code share, and `laws` states what holds of the
//! definitions themselves. No number of a name, no stack and no position in a text stands here.
#![tactic(auto)]

mod category;
mod error;
mod laws;
mod primitive;
mod reply;

pub use category::{Cat, LineState};
pub use error::Error;
pub use laws::{one_end, one_outcome};
pub use primitive::Primitive;
pub use reply::Status;
