//! The line between a client and a session: frames read with the exact place of an error, replies
//! written.
#![tactic(auto)]

mod examples;
mod header;
mod laws;
mod line;
mod replies;
mod requests;
#[cfg(test)]
mod slow;
#[cfg(test)]
mod tests;
mod text;

pub use examples::{bytes_of_frames, bytes_of_replies};
pub use laws::{
    breaks_behind, breaks_in_what_is_left, breaks_in_what_is_read, input_is_read_as,
    lawful_never_breaks, one_place, one_reading,
};
pub use replies::{Body, Reply, Sent, write_reply};
pub use requests::{EndBy, Got, Request, read_request};
