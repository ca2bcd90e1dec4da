//! The trait of a store.

ghost use Rattle.std.specs.Prelude.{◌≡◌, ◌++◌, [], IsSome, IfOk, OnOk, OnErr, unwrap_or};
ghost use Rattle.tx_store.specs.Sessions.{Session, IsSound};
ghost use Rattle.tx_store.specs.Steps.{Same, AfterIntern, AfterFind, HasRoom, IsHeld, AfterShare, AfterTake, AfterRelease, content_of};

use std::alloc::AllocError;
use tx_tok::{ListRef, Tok};

/// A table of names and a pool of lists, as one session sees them. Other sessions may work on both at the
/// same time: all that is said is of what this session knows and holds. The only error is want of memory,
/// which changes nothing.
pub trait Store {
    /// What a call needs beside the store.
    type Rt;

    ghost session: { Self → Session };

    /// A fact for callers; it does nothing. The session knows the format's names, and no two numbers with
    /// one text.
    fn is_sound(&self)
        ensures { IsSound (session self.now) };

    /// The number of a name's text: that which the session knows, and else one that it knows from now on.
    /// *TeX: The Program*, part 18.
    fn intern(&mut self, rt: &Self::Rt, text: &[u8]) -> Result<u64, AllocError>
        ensures ok { IfOk result (λ number. AfterIntern (session self.old) text.now number (session self.new)) }
        ensures err { OnErr result (Same (session self.old) (session self.new)) };

    /// The number of a name's text, if there is one. None comes only where the session knows none.
    fn find(&mut self, rt: &Self::Rt, text: &[u8]) -> Option<u64>
        ensures { AfterFind (session self.old) text.now result (session self.new) };

    /// Appends the text of a number that the session knows.
    fn text(&mut self, rt: &Self::Rt, number: u64, out: &mut Vec<u8>) -> Result<(), AllocError>
        requires { IsSome ((session self.old).names number) }
        ensures ok { OnOk result (out.new.items ≡ out.old.items ++ unwrap_or ((session self.old).names number) []) }
        ensures err { OnErr result (out.new.items ≡ out.old.items) }
        ensures same { Same (session self.old) (session self.new) };

    /// A reference to a list with this content, which the session holds from now on. *TeX: The Program*,
    /// part 14.
    fn share(&mut self, rt: &Self::Rt, content: &[Tok]) -> Result<ListRef, AllocError>
        requires { HasRoom (session self.old) }
        ensures ok { IfOk result (λ reference. AfterShare (session self.old) content.now reference (session self.new)) }
        ensures err { OnErr result (Same (session self.old) (session self.new)) };

    /// One reference more to a list that the session holds.
    fn take(&mut self, rt: &Self::Rt, id: u64)
        requires held { IsHeld (session self.old) id }
        requires room { HasRoom (session self.old) }
        ensures { AfterTake (session self.old) id (session self.new) };

    /// One reference less to a list that the session holds. Without any it is no longer held.
    fn release(&mut self, rt: &Self::Rt, id: u64)
        requires { IsHeld (session self.old) id }
        ensures { AfterRelease (session self.old) id (session self.new) };

    /// Appends the content of a list that the session holds.
    fn read(&mut self, rt: &Self::Rt, id: u64, out: &mut Vec<Tok>) -> Result<(), AllocError>
        requires { IsHeld (session self.old) id }
        ensures ok { OnOk result (out.new.items ≡ out.old.items ++ content_of ((session self.old).row id)) }
        ensures err { OnErr result (out.new.items ≡ out.old.items) }
        ensures same { Same (session self.old) (session self.new) };
}
