//! A shelf in memory.

ghost use Rattle.std.specs.Prelude.{◌≡◌, ℕ, ◌↔◌, [], IsTrue};
ghost use Rattle.std.specs.Option.{option_copied};
ghost use Rattle.tx_bytes.specs.Shelves.{AfterLook, content_of};
ghost use Rattle.tx_bytes.specs.Memory.{shelf_tells_of, is_failing, after_look, AfterCopy, IsNewShelf};

use super::failures::Failures;
use crate::{File, Files, Look, Shelf};
use std::marker::Model;

/// A shelf in memory, of which chosen calls fail.
#[derive(Debug, Drop)]
pub struct MemShelf {
    files: Files,
    failures: Failures,
}

impl Model for MemShelf {
    ghost use Rattle.tx_bytes.specs.Memory.{HeldFiles};

    ghost Value = { HeldFiles };

    ghost view = { λ s. record { plan = s.failures; files = s.files } };
}

impl MemShelf {
    /// A shelf with these files, of which the calls with these numbers fail. Calls are counted from 0.
    pub fn new(files: Files, failing: Vec<u64>) -> Self
        ensures { IsNewShelf files failing.items result }
    {
        MemShelf {
            files,
            failures: Failures::new(failing),
        }
    }

    /// How many calls failed.
    pub fn faults(&self) -> u64
        ensures { result ≡ self.now.plan.faults }
    {
        self.failures.faults()
    }
}

// The bytes of the first file of that name.
fn find<'a>(files: &'a [File], name: &str) -> Option<&'a [u8]>
    ensures { option_copied result ≡ content_of name.now files.now }
{
    for file in files {
        if name.as_bytes() == file.name.as_slice() {
            return Some(file.content.as_slice());
        }
    }
    None
}

// Copies the bytes into `out`, if they are at most `limit`.
fn copy(content: &[u8], limit: usize, out: &mut Vec<u8>) -> Look
    requires { out.old.items ≡ [] }
    ensures { AfterCopy content.now limit result out.new.items }
{
    if content.len() > limit {
        return Look::Long;
    }
    match out.extend_from_slice(content) {
        Ok(()) => Look::Found,
        Err(_) => Look::Memory,
    }
}

impl Shelf for MemShelf {
    ghost tells = { shelf_tells_of };

    fn read(&mut self, name: &str, limit: usize, out: &mut Vec<u8>) -> Look
        ensures told { AfterLook (shelf_tells_of self.old) name.now limit result out.new.items (shelf_tells_of self.new) }
        ensures after { self.new ≡ after_look self.old }
        ensures fails { (result ≡ Look.Failed) ↔ IsTrue (is_failing self.old.plan) }
    {
        out.clear();
        if self.failures.fails() {
            return Look::Failed;
        }
        match find(&self.files.entries, name) {
            None => Look::Absent,
            Some(content) => copy(content, limit, out),
        }
    }
}
