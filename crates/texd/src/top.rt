//! The top call.

ghost use Rattle.std.specs.Prelude.{◌≡◌, ◌≤◌, ℕ, List, length, IfOk, Err};
ghost use Rattle.tx_bytes.specs.Tells.{Tells};
ghost use Rattle.tx_bytes.specs.Shelves.{ShelfTells};
ghost use Rattle.texd.specs.Files.{AfterFiles, IsPlace};
ghost use Rattle.texd.specs.Top.{code_of, Ends, AfterOnce, AreReady, AfterLine, status_after};

use crate::early::{absent_line, long_line, long_together_line, preamble_line};
use crate::files::{Unread, read_files};
use crate::words::names_of;
use std::alloc::{AllocError, Global};
use std::sync::Wait;
use std::thread::Threads;
use tx_bytes::{Files, Gate, Port, Put, Shelf, Sink, Source, Word};
use tx_model::Status;
use tx_region::{PreFault, Run, preamble, run_once};

/// How the program ends.
#[derive(Clone, Copy, Debug, PartialEq, Eq)]
pub enum ExitStatus {
    /// All replies are written.
    Done = 0,
    /// The words are refused.
    Refused = 2,
    /// The preamble ends by an error, or its budget is spent.
    Preamble = 3,
    /// A file is absent.
    Absent = 4,
    /// A call of the shelf or of the input failed.
    ReadFault = 5,
    /// A call of the output failed.
    WriteFault = 6,
    /// The input breaks the grammar of frames.
    Bad = 7,
    /// Memory was wanting outside any region.
    Memory = 8,
    /// A file is too long, or all files are together.
    Long = 10,
}

/// The program: does what the words say, with the outside that it is handed, and answers its exit
/// status.
///
/// `once` and the names of files make one session. The files are read of the shelf, one after another, and
/// the first of them, the preamble, is run as one region from the state BARE. Then frames are read from the
/// input, and their replies are written, each from the state that the regions answered DONE before it
/// leave:
/// - 0: the input was read to its end, to `BYE` or to the frame answered `FULL`, and all replies are
///   written;
/// - 2: the words are not `once` and at most 256 names; nothing is read or written;
/// - 3: the preamble ends by an error or spends its 100,000,000 steps; `PREAMBLE`, its status, its steps
///   and the length of its log are written, and then its log;
/// - 4: a file is absent; `ABSENT` and its name are written;
/// - 5: a call of the shelf or of the input failed, and its count rose; the replies to the frames that were
///   read whole are written;
/// - 6: a call of the output failed, and its count rose; a prefix of what was due is written;
/// - 7: the input breaks the grammar of frames; the replies so far are written, and then `BAD` and the
///   place;
/// - 8: memory was wanting outside any region; the replies to some first frames are written;
/// - 10: a file has more than 16 MiB, or all have more than 256 MiB; `LONG file` and its name, or
///   `LONG files`, is written.
///
/// Want of memory in a region is the reply `MEMORY`. The port stays as it is.
pub fn texd<
    R: Threads + Wait + Send + Sync,
    S: Shelf,
    I: Source,
    O: Sink,
    P: Port + Send,
    G: Gate + Sync,
>(
    rt: &R,
    alloc: Global,
    words: &[Word],
    shelf: &mut S,
    input: &mut I,
    output: &mut O,
    port: &mut P,
    gate: &G,
) -> u8
    ensures ends { (s : ExitStatus) × (result ≡ code_of s) × Ends words.now (S.tells shelf.old) (S.tells shelf.new) (I.tells input.old) (I.tells input.new) (O.tells output.old) s (O.tells output.new) }
    ensures shelf { (S.tells shelf.new).files ≡ (S.tells shelf.old).files }
    ensures port { P.tells port.new ≡ P.tells port.old }
{
    obey(alloc, words, shelf, input, output) as u8
}

/// Does what the words say.
fn obey<S: Shelf, I: Source, O: Sink>(
    alloc: Global,
    words: &[Word],
    shelf: &mut S,
    input: &mut I,
    output: &mut O,
) -> ExitStatus
    ensures ends { Ends words.now (S.tells shelf.old) (S.tells shelf.new) (I.tells input.old) (I.tells input.new) (O.tells output.old) result (O.tells output.new) }
    ensures shelf { (S.tells shelf.new).files ≡ (S.tells shelf.old).files }
{
    match names_of(words) {
        Some(names) => once(alloc, names, shelf, input, output),
        None => ExitStatus::Refused,
    }
}

/// One session, with the files of these names.
fn once<S: Shelf, I: Source, O: Sink>(
    alloc: Global,
    names: &[Word],
    shelf: &mut S,
    input: &mut I,
    output: &mut O,
) -> ExitStatus
    requires { length names.now ≤ 256 }
    ensures once { AfterOnce (S.tells shelf.old) (S.tells shelf.new) names.now (I.tells input.old) (I.tells input.new) (O.tells output.old) result (O.tells output.new) }
    ensures shelf { (S.tells shelf.new).files ≡ (S.tells shelf.old).files }
{
    match read_files(alloc, shelf, names) {
        Ok(files) => serve(alloc, &files, input, output),
        Err(unread) => stop(alloc, names, unread, output),
    }
}

/// One session, with these files.
fn serve<I: Source, O: Sink>(
    alloc: Global,
    files: &Files,
    input: &mut I,
    output: &mut O,
) -> ExitStatus
    ensures { (shelf_old shelf_new : ShelfTells) (names : List (List ℕ)) → AreReady shelf_old names files.now → AfterOnce shelf_old shelf_new names (I.tells input.old) (I.tells input.new) (O.tells output.old) result (O.tells output.new) }
{
    match preamble(alloc, files) {
        Ok(format) => status_of(run_once(alloc, &format, input, output)),
        Err(PreFault::Fail(log, steps)) => {
            let line = preamble_line(alloc, Status::Fail, &log, steps);
            end(output, line, ExitStatus::Preamble)
        }
        Err(PreFault::Spent(log, steps)) => {
            let line = preamble_line(alloc, Status::Spent, &log, steps);
            end(output, line, ExitStatus::Preamble)
        }
        Err(PreFault::Memory) => ExitStatus::Memory,
    }
}

/// The end where the files can't be read.
fn stop<O: Sink>(alloc: Global, names: &[Word], unread: Unread, output: &mut O) -> ExitStatus
    requires { IsPlace names.now unread }
    ensures { (shelf_old shelf_new : ShelfTells) (input : Tells) → AfterFiles shelf_old names.now (Err unread) shelf_new → AfterOnce shelf_old shelf_new names.now input input (O.tells output.old) result (O.tells output.new) }
{
    match unread {
        Unread::Absent(k) => {
            let line = absent_line(alloc, names[k].as_str());
            end(output, line, ExitStatus::Absent)
        }
        Unread::Long(k) => {
            let line = long_line(alloc, names[k].as_str());
            end(output, line, ExitStatus::Long)
        }
        Unread::LongTogether => {
            let line = long_together_line(alloc);
            end(output, line, ExitStatus::Long)
        }
        Unread::Failed => ExitStatus::ReadFault,
        Unread::Memory => ExitStatus::Memory,
    }
}

/// Ends the program with a line, if there was memory for it.
fn end<O: Sink>(output: &mut O, line: Result<Vec<u8>, AllocError>, status: ExitStatus) -> ExitStatus
    ensures { (bytes : List ℕ) → IfOk line (λ l. l.items ≡ bytes) → AfterLine bytes (O.tells output.old) status result (O.tells output.new) }
{
    let Ok(line) = line else {
        return ExitStatus::Memory;
    };
    match output.write(line.as_slice()) {
        Put::All => status,
        Put::Failed => ExitStatus::WriteFault,
        Put::Memory => ExitStatus::Memory,
    }
}

/// The status after a session that ended so.
fn status_of(run: Run) -> ExitStatus
    ensures { result ≡ status_after run }
{
    match run {
        Run::Done => ExitStatus::Done,
        Run::Bad(_) => ExitStatus::Bad,
        Run::ReadFault => ExitStatus::ReadFault,
        Run::WriteFault => ExitStatus::WriteFault,
        Run::Memory => ExitStatus::Memory,
    }
}
