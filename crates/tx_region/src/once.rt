//! One session.

ghost use Rattle.std.specs.Prelude.{◌≡◌, ℕ, ◌≤◌, ◌<◌, ◌^◌, IfOk, length};
ghost use Rattle.tx_bytes.specs.Tells.{Tells, ReadsNext};
ghost use Rattle.tx_model.specs.Environment.{Map};
ghost use Rattle.tx_model.specs.Frames.{IsLawful, frame};
ghost use Rattle.tx_model.specs.Replies.{Full, BadFrame};
ghost use Rattle.tx_proto.specs.Requests.{request_in};
ghost use Rattle.tx_gullet.specs.States.{IsFormat, StandsFor};
ghost use Rattle.tx_region.specs.Sessions.{AfterSession};
ghost use Rattle.tx_region.specs.Turns.{AfterTurn, AfterClosing, IsWithin};
ghost use Rattle.tx_region.specs.declared.once.Run.TheVariants as run;

use crate::region::run_region;
use std::alloc::{AllocError, Global};
use tx_bytes::{Sink, Source};
use tx_gullet::{Engine, Format};
use tx_proto::{Got, Reply, Request, Sent, read_request, write_reply};

/// How many regions a session may have.
const MOST_REGIONS: u64 = 65_536;

/// How a session ended.
#[derive(Clone, Copy, Debug, PartialEq, Eq)]
pub enum Run {
    /// The input was read to its end, to `BYE` or to the frame answered `FULL`, and all replies are written.
    Done,
    /// The input breaks the grammar of frames at this place.
    Bad(u64),
    /// A call of the input failed.
    ReadFault,
    /// A call of the output failed.
    WriteFault,
    /// Memory was wanting outside any region.
    Memory,
}

/// What came of one frame.
enum Turn {
    /// It was answered; it has so many bytes.
    Served(u64),
    /// The session ends so.
    Ended(Run),
}

/// Runs one session from a format: reads frames from the input and writes the reply to each, until the
/// input ends, `BYE` is read, a frame comes after 65,536 regions, which is answered `FULL`, or the input
/// breaks the grammar, which is answered `BAD` and the place. It waits for nothing but the two objects.
pub fn run_once<I: Source, O: Sink>(
    alloc: Global,
    format: &Format,
    input: &mut I,
    output: &mut O,
) -> Run
    ensures { (map : Map) → IsFormat format.now map → AfterSession map (I.tells input.old) (I.tells input.new) (O.tells output.old) result (O.tells output.new) }
{
    match Engine::new(alloc, format) {
        Ok(engine) => serve(alloc, engine, input, output),
        Err(_) => Run::Memory,
    }
}

/// Serves a session to its end.
fn serve<I: Source, O: Sink>(alloc: Global, engine: Engine, input: &mut I, output: &mut O) -> Run
    ensures { (map : Map) → StandsFor engine map → AfterSession map (I.tells input.old) (I.tells input.new) (O.tells output.old) result (O.tells output.new) }
{
    let mut engine = engine;
    let mut had = 0;
    let mut before = 0;
    'frames: loop {
        match serve_frame(alloc, &mut engine, input, output, had, before) {
            Turn::Served(len) => {
                had += 1;
                before += len;
            }
            Turn::Ended(run) => return run,
        }
    }
}

/// Reads the next frame and answers it, where the session had so many regions, and read so many bytes for
/// them.
fn serve_frame<I: Source, O: Sink>(
    alloc: Global,
    engine: &mut Engine,
    input: &mut I,
    output: &mut O,
    had: u64,
    before: u64,
) -> Turn
    requires few { had ≤ 65536 }
    requires short { before < 2 ^ 63 }
    ensures within { IsWithin had result }
    ensures turn { (map : Map) → StandsFor engine.old map → AfterTurn had before map (I.tells input.old) (I.tells input.new) (O.tells output.old) result engine.new (O.tells output.new) }
{
    match read_request(alloc, input, before) {
        Got::Request(request) => answer(alloc, engine, &request, output, had),
        Got::End(_) => Turn::Ended(Run::Done),
        Got::Bad(place) => Turn::Ended(refuse(alloc, output, place)),
        Got::ReadFault => Turn::Ended(Run::ReadFault),
        Got::Memory => Turn::Ended(Run::Memory),
    }
}

/// Answers a frame that was read.
fn answer<O: Sink>(
    alloc: Global,
    engine: &mut Engine,
    request: &Request,
    output: &mut O,
    had: u64,
) -> Turn
    requires few { had ≤ 65536 }
    requires lawful { IsLawful (request_in request.now) }
    ensures within { IsWithin had result }
    ensures turn { (before : ℕ) (map : Map) (input_old input_new : Tells) → StandsFor engine.old map → input_old.faults ≤ input_new.faults → ReadsNext input_old (frame (request_in request.now)) input_new → AfterTurn had before map input_old input_new (O.tells output.old) result engine.new (O.tells output.new) }
{
    if had == MOST_REGIONS {
        return Turn::Ended(fill(alloc, output));
    }
    let Ok(len) = frame_len(alloc, request) else {
        return Turn::Ended(Run::Memory);
    };
    let reply = run_region(alloc, engine, request);
    match write_reply(alloc, output, &reply) {
        Sent::All => Turn::Served(len),
        Sent::WriteFault => Turn::Ended(Run::WriteFault),
        Sent::Memory => Turn::Ended(Run::Memory),
    }
}

/// Answers a frame that finds the session full.
fn fill<O: Sink>(alloc: Global, output: &mut O) -> Run
    ensures { AfterClosing Full (O.tells output.old) run.Done result (O.tells output.new) }
{
    match write_reply(alloc, output, &Reply::Full) {
        Sent::All => Run::Done,
        Sent::WriteFault => Run::WriteFault,
        Sent::Memory => Run::Memory,
    }
}

/// Answers an input that breaks the grammar at this place.
fn refuse<O: Sink>(alloc: Global, output: &mut O, place: u64) -> Run
    ensures { AfterClosing (BadFrame place) (O.tells output.old) (run.Bad place) result (O.tells output.new) }
{
    match write_reply(alloc, output, &Reply::Bad(place)) {
        Sent::All => Run::Bad(place),
        Sent::WriteFault => Run::WriteFault,
        Sent::Memory => Run::Memory,
    }
}

/// The number of bytes of a request's frame. The only error is want of memory.
fn frame_len(alloc: Global, request: &Request) -> Result<u64, AllocError>
    requires { IsLawful (request_in request.now) }
    ensures { IfOk result (λ len. len ≡ length (frame (request_in request.now))) }
{
    let budget = request.budget;
    let text = request.text.len();
    let header = format!(in alloc; "REGION {budget} {text}\n")?;
    Ok(header.len() as u64 + text as u64)
}
