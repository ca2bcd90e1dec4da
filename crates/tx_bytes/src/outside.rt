//! The traits of the outside, and what their calls answer.

ghost use Rattle.std.specs.Prelude.{◌≡◌, ℕ, ◌<◌, length, true};
ghost use Rattle.tx_bytes.specs.Tells.{Tells};
ghost use Rattle.tx_bytes.specs.Calls.{AfterRead, AfterWrite};
ghost use Rattle.tx_bytes.specs.Shelves.{ShelfTells, AfterLook};
ghost use Rattle.tx_bytes.specs.Ports.{PortTells, AfterBind, AfterAccept, TakesBack};

/// The answer to a read.
#[derive(Clone, Copy, Debug, PartialEq, Eq)]
pub enum Took {
    /// So many bytes were read.
    Bytes(usize),
    /// Nothing is left to read.
    End,
    /// The call failed.
    Failed,
}

/// The answer to a write.
#[derive(Clone, Copy, Debug, PartialEq, Eq)]
pub enum Put {
    /// All bytes were written.
    All,
    /// The call failed, and a prefix was written.
    Failed,
    /// Memory was wanting, and nothing was written.
    Memory,
}

/// An object that tells of itself.
pub trait Told {
    ghost tells: { Self → Tells };
}

/// What can be read from.
pub trait Source: Told {
    /// Reads the next bytes into the front of the buffer.
    fn read(&mut self, buffer: &mut [u8]) -> Took
        requires { 0 < length buffer.old }
        ensures { AfterRead (Self.tells self.old) buffer.new result (Self.tells self.new) };
}

/// What can be written to.
pub trait Sink: Told {
    /// Writes all the bytes.
    fn write(&mut self, bytes: &[u8]) -> Put
        ensures { AfterWrite (Self.tells self.old) bytes.now result (Self.tells self.new) };
}

/// Both.
pub trait Link: Source + Sink {}

/// The answer of a shelf.
#[derive(Clone, Copy, Debug, PartialEq, Eq)]
pub enum Look {
    /// The file is there, and its bytes are in the buffer.
    Found,
    /// There is no file of that name.
    Absent,
    /// The file is longer than the limit.
    Long,
    /// The call failed.
    Failed,
    /// Memory was wanting.
    Memory,
}

/// Named files that can be read whole.
pub trait Shelf {
    ghost tells: { Self → ShelfTells };

    /// Reads the file of that name, if it has at most `limit` bytes, into `out`, which is emptied first.
    fn read(&mut self, name: &str, limit: usize, out: &mut Vec<u8>) -> Look
        ensures { AfterLook (tells self.old) name.now limit result out.new.items (tells self.new) };
}

/// The answer to a binding.
#[derive(Clone, Copy, Debug, PartialEq, Eq)]
pub enum Bound {
    /// The port is bound.
    Ready,
    /// The call failed.
    Failed,
}

/// The answer of a port that was asked for the next link.
#[derive(Drop)]
pub enum Knock<L> {
    /// The next link.
    Link(L),
    /// The port hands out no further link.
    Closed,
    /// The call failed.
    Failed,
    /// Memory was wanting.
    Memory,
}

/// What hands out links.
pub trait Port {
    type L: Link + Send;

    ghost tells: { Self → PortTells };

    /// Binds the port to a number.
    fn bind(&mut self, number: u16) -> Bound
        ensures { AfterBind (tells self.old) result (tells self.new) };

    /// Waits for the next link.
    fn accept(&mut self) -> Knock<Self::L>
        requires { (tells self.old).is_bound ≡ true }
        ensures { AfterAccept Self.L.tells (tells self.old) result (tells self.new) };

    /// Takes a link back.
    fn done(&mut self, link: Self::L)
        requires { length (tells self.old).back < (tells self.old).handed }
        ensures { TakesBack (tells self.old) (Self.L.tells link) (tells self.new) };
}

/// Told of each region before a worker runs it.
pub trait Gate {
    /// Region `region` of session `session` is about to run, where the shared table has `names` names and
    /// the shared pool `lists` lists.
    fn pass(&self, session: u64, region: u64, names: u64, lists: u64);
}
