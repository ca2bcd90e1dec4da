//! Replies, and how they are written.

ghost use Rattle.std.specs.Prelude.{◌≡◌, ◌≤◌, ◌∷◌, ◌++◌, List, [], length, IfOk, OnOk};
ghost use Rattle.std.specs.Fmt.{decimal};
ghost use Rattle.std.specs.String.{string_bytes};
ghost use lib.Chars.{codes};
ghost use Rattle.tx_model.specs.Replies.{header, reply_bytes};
ghost use Rattle.tx_proto.specs.Written.{AfterReply, reply_in};

use std::alloc::{AllocError, Global};
use tx_bytes::{Bytes, Put, Sink};

/// What a region made.
#[derive(Debug, Drop)]
pub struct Body {
    /// The steps spent.
    pub steps: u32,
    pub pages: u32,
    pub dvi: Bytes,
    pub log: Bytes,
}

/// What a client gets for a request.
#[derive(Debug, Drop)]
pub enum Reply {
    /// The region ended.
    Done(Body),
    /// An error ended it.
    Fail(Body),
    /// Its budget was spent.
    Spent(Body),
    /// Memory was wanting for it.
    Memory,
    /// The session has had all its regions.
    Full,
    /// The input breaks the grammar of frames at this place.
    Bad(u64),
}

/// How a write ended.
#[derive(Clone, Copy, Debug, PartialEq, Eq)]
pub enum Sent {
    /// All was written.
    All,
    /// A call of the output failed, and a first part may be written.
    WriteFault,
    /// Memory was wanting, and nothing was written.
    Memory,
}

/// Writes a reply by one write. Where the output fails, a prefix of the reply may be written; where
/// memory is wanting for the reply's bytes, nothing is.
pub fn write_reply<L: Sink>(alloc: Global, to: &mut L, reply: &Reply) -> Sent
    ensures written { AfterReply (reply_bytes (reply_in reply.now)) (L.tells to.old) result (L.tells to.new) }
    ensures grows { (L.tells to.old).faults ≤ (L.tells to.new).faults }
{
    let Ok(bytes) = bytes_of(alloc, reply) else {
        return Sent::Memory;
    };
    match to.write(bytes.as_slice()) {
        Put::All => Sent::All,
        Put::Failed => Sent::WriteFault,
        Put::Memory => Sent::Memory,
    }
}

/// The bytes of a reply. The only error is want of memory.
fn bytes_of(alloc: Global, reply: &Reply) -> Result<Vec<u8>, AllocError>
    ensures { IfOk result (λ bytes. bytes.items ≡ reply_bytes (reply_in reply.now)) }
{
    match reply {
        Reply::Done(body) => bytes_with(alloc, "DONE", body),
        Reply::Fail(body) => bytes_with(alloc, "FAIL", body),
        Reply::Spent(body) => bytes_with(alloc, "SPENT", body),
        Reply::Memory => Vec::from_slice(alloc, b"MEMORY 0 0 0 0\n"),
        Reply::Full => Vec::from_slice(alloc, b"FULL\n"),
        Reply::Bad(place) => bad_bytes(alloc, *place),
    }
}

/// The bytes of the reply with this status and body. The only error is want of memory.
fn bytes_with(alloc: Global, word: &str, body: &Body) -> Result<Vec<u8>, AllocError>
    ensures { IfOk result (λ bytes. bytes.items ≡ header word.now body.now.steps body.now.pages (length body.now.dvi) (length body.now.log) ++ body.now.dvi ++ body.now.log) }
{
    let header = header_text(
        alloc,
        word,
        body.steps,
        body.pages,
        body.dvi.len(),
        body.log.len(),
    )?;
    let mut bytes = Vec::from_slice(alloc, header.as_bytes())?;
    bytes.extend_from_slice(body.dvi.as_slice())?;
    bytes.extend_from_slice(body.log.as_slice())?;
    Ok(bytes)
}

/// The first line of a reply to a region. The only error is want of memory.
fn header_text(
    alloc: Global,
    word: &str,
    steps: u32,
    pages: u32,
    dvi: usize,
    log: usize,
) -> Result<String, AllocError>
    ensures { IfOk result (λ text. string_bytes text ≡ header word.now steps pages dvi log) }
{
    let mut text = String::from_str(alloc, word)?;
    push_number(alloc, &mut text, u64::from(steps))?;
    push_number(alloc, &mut text, u64::from(pages))?;
    push_number(alloc, &mut text, dvi as u64)?;
    push_number(alloc, &mut text, log as u64)?;
    text.push('\n')?;
    Ok(text)
}

/// Adds a blank and a number in decimal. The only error is want of memory.
fn push_number(alloc: Global, text: &mut String, number: u64) -> Result<(), AllocError>
    ensures { OnOk result (string_bytes text.new ≡ string_bytes text.old ++ 32 ∷ decimal number) }
{
    let digits = number.to_string(alloc)?;
    text.push(' ')?;
    text.push_str(digits.as_str())?;
    Ok(())
}

/// The bytes of the reply to an input that breaks at this place. The only error is want of memory.
fn bad_bytes(alloc: Global, place: u64) -> Result<Vec<u8>, AllocError>
    ensures { IfOk result (λ bytes. bytes.items ≡ codes "BAD " ++ decimal place ++ 10 ∷ []) }
{
    let mut text = String::from_str(alloc, "BAD")?;
    push_number(alloc, &mut text, place)?;
    text.push('\n')?;
    Vec::from_slice(alloc, text.as_bytes())
}
