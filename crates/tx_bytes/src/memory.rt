//! Objects of the outside in memory, of which chosen calls fail.

mod failures;
mod link;
mod port;
mod shelf;
mod sink;
mod source;

pub use link::MemLink;
pub use port::{LinkPlan, MemPort};
pub use shelf::MemShelf;
pub use sink::MemSink;
pub use source::MemSource;
