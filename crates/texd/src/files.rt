//! The files that the words name.

ghost use Rattle.std.specs.Prelude.{◌≡◌, ◌≤◌, ◌<◌, ◌^◌, length};
ghost use Rattle.texd.specs.Files.{AfterFiles, AfterFile, AfterAll, total as total_of};

use std::alloc::Global;
use tx_bytes::{Bytes, File, Files, Look, Shelf, Word};

/// How many bytes one file may have.
const MOST_OF_ONE: usize = 16_777_216;

/// How many bytes all files together may have.
const MOST_OF_ALL: u64 = 268_435_456;

/// What keeps the files from being read.
#[derive(Clone, Copy, Debug, PartialEq, Eq)]
pub enum Unread {
    /// There is no file of the name at this place.
    Absent(usize),
    /// The file of the name at this place is too long.
    Long(usize),
    /// The files are too long together.
    LongTogether,
    /// A call of the shelf failed.
    Failed,
    /// Memory was wanting.
    Memory,
}

/// What came of one file.
enum Fetched {
    File(File),
    Absent,
    Long,
    Failed,
    Memory,
}

/// Reads the files of these names, one after another, of which each may have 16 MiB and all together
/// 256 MiB.
pub fn read_files<S: Shelf>(alloc: Global, shelf: &mut S, names: &[Word]) -> Result<Files, Unread>
    requires { length names.now ≤ 256 }
    ensures files { AfterFiles (S.tells shelf.old) names.now result (S.tells shelf.new) }
    ensures stays { (S.tells shelf.new).files ≡ (S.tells shelf.old).files }
    ensures grows { (S.tells shelf.old).faults ≤ (S.tells shelf.new).faults }
{
    let files = read_all(alloc, shelf, names)?;
    if total(files.entries.as_slice()) > MOST_OF_ALL {
        Err(Unread::LongTogether)
    } else {
        Ok(files)
    }
}

/// Reads the files of these names, one after another.
fn read_all<S: Shelf>(alloc: Global, shelf: &mut S, names: &[Word]) -> Result<Files, Unread>
    ensures files { AfterAll (S.tells shelf.old) names.now result (S.tells shelf.new) }
    ensures stays { (S.tells shelf.new).files ≡ (S.tells shelf.old).files }
    ensures grows { (S.tells shelf.old).faults ≤ (S.tells shelf.new).faults }
{
    let mut entries = Vec::new(alloc);
    for (k, name) in names.iter().enumerate() {
        match fetch(alloc, shelf, name) {
            Fetched::File(file) => {
                if entries.push(file).is_err() {
                    return Err(Unread::Memory);
                }
            }
            Fetched::Absent => return Err(Unread::Absent(k)),
            Fetched::Long => return Err(Unread::Long(k)),
            Fetched::Failed => return Err(Unread::Failed),
            Fetched::Memory => return Err(Unread::Memory),
        }
    }
    Ok(Files { entries })
}

/// Reads the file of this name.
fn fetch<S: Shelf>(alloc: Global, shelf: &mut S, name: &Word) -> Fetched
    ensures file { AfterFile (S.tells shelf.old) name.now result (S.tells shelf.new) }
    ensures stays { (S.tells shelf.new).files ≡ (S.tells shelf.old).files }
    ensures grows { (S.tells shelf.old).faults ≤ (S.tells shelf.new).faults }
{
    let Ok(copy) = Bytes::from_slice(alloc, name.as_str().as_bytes()) else {
        return Fetched::Memory;
    };
    let mut content = Vec::new(alloc);
    match shelf.read(name.as_str(), MOST_OF_ONE, &mut content) {
        Look::Found => Fetched::File(File {
            name: copy,
            content: Bytes(content),
        }),
        Look::Absent => Fetched::Absent,
        Look::Long => Fetched::Long,
        Look::Failed => Fetched::Failed,
        Look::Memory => Fetched::Memory,
    }
}

/// The number of bytes of files together.
fn total(files: &[File]) -> u64
    requires { total_of files.now < 2 ^ 64 }
    ensures { result ≡ total_of files.now }
{
    let mut sum = 0;
    for file in files {
        sum += file.content.len() as u64;
    }
    sum
}
