//! A shelf over files.

ghost use Rattle.std.specs.Prelude.{◌≡◌, ℕ, ◌≤◌, [], length, vec_len};
ghost use Rattle.tx_bytes.specs.Shelves.{AfterLook};
ghost use Rattle.tx_bytes.specs.Real.{shelf_faults_of, faults_after_look, IsLook, ReadsWhole};

use crate::{Look, Shelf};
use std::io::{ErrorKind, Read};
use std::marker::Model;
use std::{fs, rt};

/// A shelf over files, where a name is a path. A file that can't be opened or read counts as a failed
/// call, unless it isn't there.
#[derive(Drop)]
pub struct StdShelf<'a, F: rt::Files> {
    files: &'a F,
    faults: u64,
}

impl<'a, F: rt::Files> Model for StdShelf<'a, F> {
    ghost use Rattle.std.specs.Prelude.{ℕ};

    ghost Value = { ℕ };

    ghost view = { λ s. s.faults };
}

impl<'a, F: rt::Files> StdShelf<'a, F> {
    /// A shelf over these files, of which no call failed.
    pub fn new(files: &'a F) -> Self
        ensures { result ≡ 0 }
    {
        StdShelf { files, faults: 0 }
    }

    /// How many calls failed; the count stays at 2^64 - 1.
    pub fn faults(&self) -> u64
        ensures { result ≡ self.now }
    {
        self.faults
    }
}

// Reads the file of that name into `out`, which is emptied first.
fn look_up<F: rt::Files>(files: &F, name: &str, limit: usize, out: &mut Vec<u8>) -> Look
    ensures { IsLook limit result out.new.items }
{
    out.clear();
    let mut file = match fs::open(files, name) {
        Ok(file) => file,
        Err(error) => {
            return if error.kind() == ErrorKind::NotFound {
                Look::Absent
            } else {
                Look::Failed
            };
        }
    };
    let look = read_whole(&mut file, limit, out);
    if look != Look::Found {
        out.clear();
    }
    look
}

// Reads to the end, unless more than `limit` bytes come.
fn read_whole<R: Read>(reader: &mut R, limit: usize, out: &mut Vec<u8>) -> Look
    requires { out.old.items ≡ [] }
    ensures { ReadsWhole (R.remaining reader.old) limit result out.new.items }
{
    let mut buffer = [0; 4096];
    'reads: loop {
        match reader.read(&mut buffer) {
            Ok(0) => return Look::Found,
            Ok(count) => {
                if count > limit - out.len() {
                    return Look::Long;
                }
                if out.extend_from_slice(&buffer[..count]).is_err() {
                    return Look::Memory;
                }
            }
            Err(_) => return Look::Failed,
        }
    }
}

impl<'a, F: rt::Files> Shelf for StdShelf<'a, F> {
    ghost tells = { shelf_faults_of };

    fn read(&mut self, name: &str, limit: usize, out: &mut Vec<u8>) -> Look
        ensures told { AfterLook (shelf_faults_of self.old) name.now limit result out.new.items (shelf_faults_of self.new) }
        ensures faults { self.new ≡ faults_after_look result self.old }
    {
        let look = look_up(self.files, name, limit, out);
        if look == Look::Failed {
            self.faults = self.faults.saturating_add(1);
        }
        look
    }
}
