//! Requests, read from an input.

ghost use Rattle.std.specs.Prelude.{◌≡◌, ◌^◌, ◌<◌, ◌≤◌};
ghost use Rattle.tx_proto.specs.Headers.{IsHeader};
ghost use Rattle.tx_proto.specs.Requests.{AfterRequest};
ghost use Rattle.tx_proto.specs.Texts.{AfterBody};

use crate::line::{Header, Line, read_line};
use crate::text::{Text, read_text};
use std::alloc::Global;
use tx_bytes::{Bytes, Source};

/// A text to run, and the steps that it may spend.
#[derive(Debug, Drop)]
pub struct Request {
    pub budget: u32,
    pub text: Bytes,
}

/// How an input ended.
#[derive(Clone, Copy, Debug, PartialEq, Eq)]
pub enum EndBy {
    /// By the line BYE.
    Bye,
    /// By the end of its bytes.
    Bytes,
}

/// What was read.
#[derive(Debug, Drop)]
pub enum Got {
    /// A request.
    Request(Request),
    /// The end of the input.
    End(EndBy),
    /// The input breaks the grammar of frames at this place: that of the first byte with which no
    /// lawful input begins, or of the end, if it ends inside a frame.
    Bad(u64),
    /// A call of the input failed, and what was read of a frame before is dropped.
    ReadFault,
    /// Memory was wanting for a text, of which nothing was read.
    Memory,
}

/// Reads the next request, and nothing behind it. `at` is the number of bytes that were read before.
pub fn read_request<L: Source>(alloc: Global, from: &mut L, at: u64) -> Got
    requires { at < 2 ^ 63 }
    ensures read { AfterRequest (L.tells from.old) at result (L.tells from.new) }
    ensures grows { (L.tells from.old).faults ≤ (L.tells from.new).faults }
{
    match read_line(from) {
        Line::Header(header) => read_body(alloc, from, at, header),
        Line::Bye => Got::End(EndBy::Bye),
        Line::End => Got::End(EndBy::Bytes),
        Line::Bad(place) => Got::Bad(at + place),
        Line::ReadFault => Got::ReadFault,
    }
}

/// Reads the text behind a header, and nothing behind it. `at` is the number of bytes that were read
/// before the header.
fn read_body<L: Source>(alloc: Global, from: &mut L, at: u64, header: Header) -> Got
    requires at { at < 2 ^ 63 }
    requires header { IsHeader header }
    ensures body { AfterBody (L.tells from.old) at header result (L.tells from.new) }
    ensures grows { (L.tells from.old).faults ≤ (L.tells from.new).faults }
{
    match read_text(alloc, from, header.length as usize) {
        Text::All(text) => Got::Request(Request {
            budget: header.budget,
            text,
        }),
        Text::Short(count) => Got::Bad(at + header.size + count as u64),
        Text::ReadFault => Got::ReadFault,
        Text::Memory => Got::Memory,
    }
}
