//! Tables whose keys are short texts that rise in the order of bytes, and two of them: the primitives
//! and the texts of errors.
#![tactic(auto)]

ghost use Rattle.std.specs.Prelude.{◌≡◌, ◌==◌, ◌<◌, length, IsTrue, IfSome};
ghost use Rattle.std.specs.Option.{option_copied};
ghost use Rattle.std.specs.List.{list_all};
ghost use Rattle.std.specs.Ordering.{nat_cmp};
ghost use Rattle.std.specs.Cmp.Lexicographic.{slice_cmp};
ghost use Rattle.tx_prims.specs.Keys.{text_of, is_text};
ghost use Rattle.tx_prims.specs.Rows.{is_lawful, are_rising, is_before, row_of, row_at, place_of, EachKeyHasItsRow};

use std::cmp::Ordering;

pub mod errors;
pub mod primitives;
#[cfg(test)]
mod tests;

/// A text of at most 24 bytes: the first `len` of `bytes`, with 0 in the others.
#[derive(Clone, Copy, Debug)]
pub struct Key {
    pub len: u8,
    pub bytes: [u8; 24],
}

impl Key {
    /// The first `len` bytes, and all 24 where `len` is greater.
    pub fn text(&self) -> &[u8]
        ensures { result.now ≡ text_of self.now }
    {
        &self.bytes[..(self.len as usize).min(24)]
    }

    /// Whether this is a text: `len` is at most 24, and the bytes after the text are 0.
    pub fn is_text(&self) -> bool
        ensures { result ≡ is_text self.now }
    {
        self.len <= 24 && are_zero(&self.bytes[(self.len as usize)..])
    }

    /// Whether the text comes before the other in the order of bytes.
    pub fn is_before(&self, other: &Key) -> bool
        ensures { result ≡ is_before (text_of self.now) (text_of other.now) }
    {
        self.compare(other.text()).is_lt()
    }

    /// How the text stands to another in the order of bytes.
    fn compare(&self, text: &[u8]) -> Ordering
        ensures { result ≡ slice_cmp nat_cmp (text_of self.now) text.now }
    {
        self.text().cmp(text)
    }
}

/// Whether each of these bytes is 0.
fn are_zero(bytes: &[u8]) -> bool
    ensures { result ≡ list_all (λ byte. byte == 0) bytes.now }
{
    bytes.iter().all(|byte| *byte == 0)
}

/// A key and what it stands for.
#[derive(Clone, Copy, Debug)]
pub struct TableRow<R> {
    pub key: Key,
    pub row: R,
}

/// Whether these rows are a table of `N` rows: each key is a text, and the texts rise strictly in the
/// order of bytes.
pub fn lawful<const N: usize, R>(rows: &[TableRow<R>]) -> bool
    ensures { result ≡ is_lawful N rows.now }
{
    rows.len() == N && are_texts(rows) && are_rising(rows)
}

/// Whether each key is a text.
fn are_texts<R>(rows: &[TableRow<R>]) -> bool
    ensures { result ≡ list_all (λ row. is_text row.key) rows.now }
{
    rows.iter().all(|row| row.key.is_text())
}

/// Whether the texts of the keys rise strictly in the order of bytes.
fn are_rising<R>(rows: &[TableRow<R>]) -> bool
    ensures { result ≡ are_rising rows.now }
{
    rows.is_sorted_by(|row, next| row.key.is_before(&next.key))
}

/// A lent table of `N` rows, which is lawful.
#[derive(Drop)]
pub struct Table<'t, const N: usize, R> {
    pub rows: &'t [TableRow<R>],
    ghost lawful: { IsTrue (is_lawful N rows.now) },
}

impl<'t, const N: usize, R> Table<'t, N, R> {
    /// The table of these rows.
    pub fn new(rows: &'t [TableRow<R>]) -> Table<'t, N, R>
        requires { IsTrue (is_lawful N rows.now) }
        ensures { result.rows.now ≡ rows.now }
    {
        Table { rows }
    }

    /// The row of this key, or None exactly where the key is absent.
    pub fn find(&self, key: &[u8]) -> Option<&R>
        ensures { option_copied result ≡ row_of key.now self.now.rows.now }
    {
        match self.place(key) {
            Some(place) => self.at(place),
            None => None,
        }
    }

    /// The place of this key's row, counted from 0, or None exactly where the key is absent.
    pub fn place(&self, key: &[u8]) -> Option<usize>
        ensures place { result ≡ place_of key.now self.now.rows.now }
        ensures within { IfSome result (λ place. place < length self.now.rows.now) }
    {
        match self.rows.binary_search_by(|row| row.key.compare(key)) {
            Ok(place) => Some(place),
            Err(_) => None,
        }
    }

    /// The row at this place, counted from 0, or None past the last one.
    pub fn at(&self, place: usize) -> Option<&R>
        ensures { option_copied result ≡ row_at place self.now.rows.now }
    {
        if place < self.rows.len() {
            Some(&self.rows[place].row)
        } else {
            None
        }
    }
}

/// In a lawful table each key has exactly its row, and an absent key has none.
pub fn each_key_has_its_row<const N: usize, R>(rows: &[TableRow<R>])
    requires { IsTrue (is_lawful N rows.now) }
    ensures { EachKeyHasItsRow rows.now }
{}
