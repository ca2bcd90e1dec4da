//! The text of a frame.

ghost use Rattle.std.specs.Prelude.{◌≡◌, ◌≤◌};
ghost use Rattle.tx_proto.specs.Texts.{AfterText};

use std::alloc::Global;
use tx_bytes::{Bytes, Source, Took};

/// What came of reading a text.
#[derive(Debug, Drop)]
pub enum Text {
    /// All of it.
    All(Bytes),
    /// The input ended after so many bytes of it.
    Short(usize),
    /// A call of the input failed.
    ReadFault,
    /// Memory was wanting for it, and nothing was read.
    Memory,
}

/// Reads a text of so many bytes, and nothing behind it.
pub fn read_text<L: Source>(alloc: Global, from: &mut L, length: usize) -> Text
    ensures text { AfterText length (L.tells from.old) result (L.tells from.new) }
    ensures grows { (L.tells from.old).faults ≤ (L.tells from.new).faults }
{
    let Ok(mut bytes) = vec![in alloc; 0u8; length] else {
        return Text::Memory;
    };
    let mut count = 0;
    'reads: while count < length {
        match from.read(&mut bytes[count..]) {
            Took::Bytes(more) => count += more,
            Took::End => return Text::Short(count),
            Took::Failed => return Text::ReadFault,
        }
    }
    Text::All(Bytes(bytes))
}
