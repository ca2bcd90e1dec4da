//! A store for one session.

ghost use Rattle.std.specs.Prelude.{◌≡◌, ◌≢◌, [], IfOk};
ghost use Rattle.tx_store.specs.Sessions.{IsNew};
ghost use Rattle.tx_store.specs.Plain.{session_of};

use crate::slots::{Slot, content, hold, release, take};
use crate::store::Store;
use std::alloc::{AllocError, Global};
use std::marker::Model;
use tx_format::Format;
use tx_names::NameTable;
use tx_tok::{ListRef, Tok};

/// The most names that a format of a plain store has.
const MOST_NAMES: u64 = 1 << 32;

/// A store that serves one session alone. Its names are numbered from the number of the format's names on,
/// and each shared list has a place of its own.
#[derive(Drop)]
pub struct PlainStore<'f> {
    format: &'f Format,
    names: NameTable,
    slots: Vec<Slot>,
}

impl<'f> Model for PlainStore<'f> {
    ghost use Rattle.std.specs.Prelude.{◌≡◌, ◌++◌, length};
    ghost use Rattle.tx_store.specs.Plain.{Plain, TextsDiffer};

    ghost Value = { Plain };

    ghost view = { λ s. record { format = s.format.now; texts = s.names.texts; slots = s.slots.items } };

    ghost invariant = { λ s. (s.names.first ≡ length s.format.now.names) × TextsDiffer (s.format.now.names ++ s.names.texts) };
}

impl<'f> PlainStore<'f> {
    /// A store that knows the format's names alone and holds no list. The only error is want of memory; a
    /// format of more than 2^32 names counts as that.
    pub fn new(alloc: Global, format: &'f Format) -> Result<PlainStore<'f>, AllocError>
        ensures { IfOk result (λ store. IsNew format.now (session_of store)) }
    {
        format.is_sound();
        let first = format.names_len();
        if first > MOST_NAMES {
            return Err(AllocError);
        }
        let names = NameTable::new(alloc, first)?;
        Ok(PlainStore {
            format,
            names,
            slots: Vec::new(alloc),
        })
    }
}

impl<'f> Store for PlainStore<'f> {
    type Rt = ();

    ghost session = { session_of };

    fn is_sound(&self) {
        // Uses of fields, by which the check knows the invariants.
        self.format.is_sound();
        let _names = &self.names;
    }

    fn intern(&mut self, _rt: &(), text: &[u8]) -> Result<u64, AllocError> {
        if let Some(number) = self.format.number_of(text) {
            return Ok(number);
        }
        self.names.intern(text)
    }

    fn find(&mut self, _rt: &(), text: &[u8]) -> Option<u64> {
        if let Some(number) = self.format.number_of(text) {
            return Some(number);
        }
        self.names.find(text)
    }

    fn text(&mut self, _rt: &(), number: u64, out: &mut Vec<u8>) -> Result<(), AllocError> {
        if number < self.format.names_len() {
            out.extend_from_slice(self.format.text(number))
        } else {
            out.extend_from_slice(self.names.text(number))
        }
    }

    fn share(&mut self, _rt: &(), content: &[Tok]) -> Result<ListRef, AllocError> {
        if content.is_empty() {
            return Ok(ListRef::Empty);
        }
        if let Some(place) = self.format.list_number(content) {
            return Ok(ListRef::Frozen(place));
        }
        let id = hold(&mut self.slots, content)?;
        Ok(ListRef::Pooled(id))
    }

    fn take(&mut self, _rt: &(), id: u64) {
        take(&mut self.slots, id);
    }

    fn release(&mut self, _rt: &(), id: u64) {
        release(&mut self.slots, id);
    }

    fn read(&mut self, _rt: &(), id: u64, out: &mut Vec<Tok>) -> Result<(), AllocError> {
        out.extend_from_slice(content(self.slots.as_slice(), id))
    }
}
