//! The table of names.

ghost use Rattle.std.specs.Prelude.{◌≡◌, ◌≢◌, ◌+◌, ◌<◌, ◌^◌, ◌≤◌, ◌↔◌, [], Some, None, length, IsTrue, OnOk, OnErr, IfOk};
ghost use Rattle.tx_names.specs.Names.{HasNumber, text_at, number_of, with_text, first_texts, Extends, IsDistinct, Naming, Agrees, NamingOf};

use indexmap::IndexSet;
use std::alloc::{AllocError, Global};
use std::marker::Model;

/// A table of distinct texts, numbered in their order from a first number on. It grows, and gives back the
/// latest texts. *TeX: The Program*, part 18.
#[derive(Debug, Drop)]
pub struct NameTable {
    first: u64,
    texts: IndexSet<Vec<u8>>,
}

impl Model for NameTable {
    ghost use Rattle.std.specs.Prelude.{◌≤◌, ◌^◌, map};
    ghost use Rattle.tx_names.specs.Names.{Names, IsDistinct};

    ghost Value = { Names };

    ghost view = { λ t. record { first = t.first; texts = map (λ text. text.items) t.texts.keys } };

    ghost invariant = { λ t. (t.first ≤ 2 ^ 32) × IsDistinct (record { first = t.first; texts = map (λ text. text.items) t.texts.keys }) };
}

impl NameTable {
    /// A table without texts, whose numbers begin with `first`. The only error is want of memory.
    pub fn new(alloc: Global, first: u64) -> Result<Self, AllocError>
        requires { first ≤ 2 ^ 32 }
        ensures { IfOk result (λ table. table ≡ record { first = first; texts = [] }) }
    {
        let texts = IndexSet::new(alloc);
        Ok(NameTable { first, texts })
    }

    /// The number of a text, which joins the table if it isn't there. The only error is want of memory,
    /// which leaves the table as it was.
    pub fn intern(&mut self, text: &[u8]) -> Result<u64, AllocError>
        ensures number { IfOk result (λ n. number_of self.new text.now ≡ Some n) }
        ensures present { OnOk result (number_of self.old text.now ≢ None → self.new ≡ self.old) }
        ensures absent { OnOk result (number_of self.old text.now ≡ None → self.new ≡ with_text text.now self.old) }
        ensures agrees { IfOk result (λ n. (naming : Naming) → Agrees naming self.new → (naming n ≡ text.now) × Agrees naming self.old) }
        ensures err { OnErr result (self.new ≡ self.old) }
        ensures extends { Extends self.old self.new }
    {
        if let Some(number) = self.find(text) {
            return Ok(number);
        }
        self.join(text)
    }

    /// The number of a text. None comes exactly where the table doesn't have it. *TeX: The Program*,
    /// section 259.
    pub fn find(&self, text: &[u8]) -> Option<u64>
        ensures { result ≡ number_of self.now text.now }
    {
        let place = self.texts.get_index_of(text)?;
        prove!(place < self.texts.len());
        Some(self.first + place as u64)
    }

    /// The text with a number of the table. *TeX: The Program*, section 256.
    pub fn text(&self, number: u64) -> &[u8]
        requires { HasNumber self.now number }
        ensures { result.now ≡ text_at self.now number }
    {
        let place = (number - self.first) as usize;
        self.texts.as_slice()[place].as_slice()
    }

    /// Keeps the first `len` texts, and drops the others. A table that has no more stays as it is. It takes
    /// no memory.
    pub fn truncate(&mut self, len: u64)
        ensures { self.new ≡ first_texts len self.old }
    {
        self.texts.truncate(len as usize);
    }

    /// How many texts the table has.
    pub fn len(&self) -> u64
        ensures { result ≡ length self.now.texts }
    {
        self.texts.len() as u64
    }

    /// Whether the table has no texts.
    pub fn is_empty(&self) -> bool
        ensures { IsTrue result ↔ (length self.now.texts ≡ 0) }
    {
        self.len() == 0
    }

    /// A fact for callers; it does nothing. No two numbers of the table have the same text, and some
    /// naming keeps all numbers apart and gives those of the table their texts.
    pub fn has_naming(&self)
        ensures naming { NamingOf self.now }
        ensures distinct { IsDistinct self.now }
    {
        // A use of a field, by which the check knows the invariant.
        let _texts = &self.texts;
    }

    /// Puts a text that the table doesn't have behind the others, and gives its number. The only error is
    /// want of memory, which leaves the table as it was.
    fn join(&mut self, text: &[u8]) -> Result<u64, AllocError>
        requires { number_of self.old text.now ≡ None }
        ensures number { IfOk result (λ n. n ≡ self.old.first + length self.old.texts) }
        ensures texts { OnOk result (self.new ≡ with_text text.now self.old) }
        ensures err { OnErr result (self.new ≡ self.old) }
    {
        let number = self.first + self.texts.len() as u64;
        let owned = text.to_vec(*self.texts.allocator())?;
        self.texts.insert(owned)?;
        Ok(number)
    }
}

impl Clone for NameTable {
    // A clone is the same table.
    ghost is_clone = { λ table copy. copy ≡ table };

    /// The same table once more. The only error is want of memory.
    fn clone(&self) -> Result<Self, AllocError> {
        let texts = self.texts.clone()?;
        Ok(NameTable {
            first: self.first,
            texts,
        })
    }
}

#[cfg(test)]
mod tests {
    use super::*;
    use std::test::Fail;

    #[test]
    fn numbers_from_five_on(rt: HostRuntime) -> Result<(), Fail> {
        let mut table = NameTable::new(rt.alloc(), 5)?;
        assert!(rt; table.is_empty());
        assert!(rt; table.intern(b"relax")? == 5);
        assert!(rt; table.intern(b"par")? == 6);
        assert!(rt; table.intern(b"relax")? == 5);
        assert!(rt; table.find(b"end").is_none());
        assert!(rt; table.len() == 2);
        table.has_naming();
        let number = table.find(b"par").ok_or("absent")?;
        assert!(rt; number == 6);
        assert!(rt; table.text(number) == b"par".as_slice());
        Ok(())
    }

    #[test]
    fn latest_texts_given_back(rt: HostRuntime) -> Result<(), Fail> {
        let mut table = NameTable::new(rt.alloc(), 0)?;
        assert!(rt; table.intern(b"relax")? == 0);
        assert!(rt; table.intern(b"par")? == 1);
        let copy = table.clone()?;
        table.truncate(1);
        assert!(rt; table.find(b"par").is_none());
        assert!(rt; table.intern(b"end")? == 1);
        assert!(rt; table.intern(b"relax")? == 0);
        assert!(rt; copy.find(b"par") == Some(1));
        assert!(rt; copy.find(b"end").is_none());
        Ok(())
    }
}
