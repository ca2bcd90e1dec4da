//! The format: a frozen state.

ghost use Rattle.std.specs.Prelude.{◌≡◌, ◌<◌, ◌≤◌, [], get_or, length, position, IfOk, IfSome, IfNone};
ghost use Rattle.tx_names.specs.Names.{number_of, IsDistinct as NamesDiffer};
ghost use Rattle.tx_format.specs.Formats.{IsFreezable, IsPreset, table_of, list_at, same_tokens};
ghost use Rattle.tx_format.specs.declared.preset.Preset.TheVariants as preset;

use crate::preset::Preset;
use crate::presets::state_of;
use crate::state::{Engineless, Lists};
use std::alloc::{AllocError, Global};
use std::marker::Model;
use tx_bytes::{Bytes, Files};
use tx_eqtb::Frozen;
use tx_names::NameTable;
use tx_node::BoxNode;
use tx_tok::{Tok, Toks};

/// A state that is never written, and that all sessions share. A contract sees it as the state.
#[derive(Drop)]
pub struct Format {
    frozen: Frozen<BoxNode>,
    names: NameTable,
    lists: Lists,
    files: Files,
}

impl Model for Format {
    ghost use Rattle.std.specs.Prelude.{◌≡◌};
    ghost use Rattle.tx_format.specs.declared.state.Engineless.{Engineless};
    ghost use Rattle.tx_format.specs.Formats.{IsFreezable};

    ghost Value = { Engineless };

    ghost view = { λ f. record { frozen = f.frozen; names = f.names.texts; lists = f.lists; files = f.files } };

    ghost invariant = { λ f. (f.names.first ≡ 0) × IsFreezable (record { frozen = f.frozen; names = f.names.texts; lists = f.lists; files = f.files }) };
}

/// Freezes a state. The only error is want of memory. *TeX: The Program*, part 50.
pub fn freeze(alloc: Global, state: Engineless) -> Result<Format, AllocError>
    requires { IsFreezable state }
    ensures { IfOk result (λ format. format ≡ state) }
{
    let names = name_table(alloc, state.names.0.as_slice())?;
    Ok(Format {
        frozen: state.frozen,
        names,
        lists: state.lists,
        files: state.files,
    })
}

/// The state with which a session without a preamble begins. The only error is want of memory.
pub fn bare(alloc: Global) -> Result<Format, AllocError>
    ensures { IfOk result (IsPreset preset.Bare) }
{
    freeze(alloc, state_of(alloc, Preset::Bare)?)
}

/// The state with which a preamble begins. The only error is want of memory.
pub fn start(alloc: Global) -> Result<Format, AllocError>
    ensures { IfOk result (IsPreset preset.Start) }
{
    freeze(alloc, state_of(alloc, Preset::Start)?)
}

/// The place of a content among lists. None comes exactly where no list has it.
fn place_of(lists: &[Toks], content: &[Tok]) -> Option<usize>
    ensures { result ≡ position (λ list. same_tokens list content.now) lists.now }
{
    lists.iter().position(|list| list.as_slice() == content)
}

/// The table of these names, which are distinct. The only error is want of memory.
fn name_table(alloc: Global, texts: &[Bytes]) -> Result<NameTable, AllocError>
    requires { NamesDiffer (table_of texts.now) }
    ensures { IfOk result (λ table. table ≡ table_of texts.now) }
{
    let mut table = NameTable::new(alloc, 0)?;
    for text in texts {
        table.intern(text.as_slice())?;
    }
    Ok(table)
}

impl Format {
    /// What every address means.
    pub fn frozen(&self) -> &Frozen<BoxNode>
        ensures { result.now ≡ self.now.frozen }
    {
        &self.frozen
    }

    /// The number of a name's text. None comes exactly where no name has it.
    pub fn number_of(&self, text: &[u8]) -> Option<u64>
        ensures { result ≡ number_of (table_of self.now.names) text.now }
    {
        self.names.find(text)
    }

    /// The text of the name with this number.
    pub fn text(&self, no: u64) -> &[u8]
        requires { no < length self.now.names }
        ensures { result.now ≡ get_or self.now.names no [] }
    {
        self.names.text(no)
    }

    /// How many names there are.
    pub fn names_len(&self) -> u64
        ensures { result ≡ length self.now.names }
    {
        self.names.len()
    }

    /// The list with this number.
    pub fn list(&self, no: u32) -> &[Tok]
        requires { no < length self.now.lists }
        ensures { result.now ≡ list_at self.now.lists no }
    {
        self.lists.0[no as usize].as_slice()
    }

    /// The list with this number. None comes exactly where there is none.
    pub fn get_list(&self, no: u32) -> Option<&[Tok]>
        ensures some { IfSome result (λ list. (no < length self.now.lists) × (list.now ≡ list_at self.now.lists no)) }
        ensures none { IfNone result (length self.now.lists ≤ no) }
    {
        let lists = self.lists.0.as_slice();
        if (no as usize) < lists.len() {
            Some(lists[no as usize].as_slice())
        } else {
            None
        }
    }

    /// The number of a list. None comes exactly where no list has that content.
    pub fn list_number(&self, content: &[Tok]) -> Option<u32>
        ensures { result ≡ position (λ list. same_tokens list content.now) self.now.lists }
    {
        match place_of(self.lists.0.as_slice(), content) {
            Some(place) => Some(place as u32),
            None => None,
        }
    }

    /// The files.
    pub fn files(&self) -> &Files
        ensures { result.now ≡ self.now.files }
    {
        &self.files
    }

    /// A fact for callers; it does nothing. The state is one that can be frozen.
    pub fn is_sound(&self)
        ensures { IsFreezable self.now }
    {
        // A use of a field, by which the check knows the invariant.
        let _names = &self.names;
    }
}
