//! The text of a region.

ghost use Rattle.std.specs.Prelude.{◌≡◌, max};
ghost use Rattle.tx_model.specs.Pending.{line_number};
ghost use Rattle.tx_model.specs.Scanner.{opened, scanned};
ghost use Rattle.tx_scan.specs.Scans.{category_by, AfterNext};
ghost use Rattle.tx_input.specs.Texts.{without_bytes, AfterScan, dropped, text_members};

use std::alloc::Global;
use std::marker::Model;
use tx_bytes::Bytes;
use tx_scan::{Cats, Scan, Scanner};

/// What of a scanner's text is read.
#[derive(Clone, Copy, Debug)]
pub(crate) enum Reading {
    /// All of it.
    Whole,
    /// Nothing more, and its end is still to come.
    Dropped,
    /// Nothing more, and its end was seen.
    Used,
}

/// A text that is scanned, of which the rest may be dropped, seen as the rest of the text.
#[derive(Debug, Drop)]
pub(crate) struct Text {
    scanner: Scanner,
    reading: Reading,
}

impl Model for Text {
    ghost use Rattle.tx_model.specs.Scanner.{Rest};

    ghost Value = { Rest };

    ghost use Rattle.tx_input.specs.Texts.{as_read};

    ghost view = { λ t. as_read t.reading t.scanner };
}

impl Text {
    /// A text of which no line was begun.
    pub(crate) fn new(alloc: Global, text: Bytes) -> Self
        ensures { result ≡ opened text }
    {
        Text {
            scanner: Scanner::new(alloc, text),
            reading: Reading::Whole,
        }
    }

    /// What stands next in the text. After `Memory` nothing is changed. *TeX: The Program*, part 24.
    fn next(&mut self, cats: &Cats, end: i32) -> Scan
        ensures { AfterNext (scanned (category_by cats.now) end self.old) self.old result self.new }
    {
        match self.reading {
            Reading::Whole => self.scanner.next(cats, end),
            Reading::Dropped | Reading::Used => {
                self.reading = Reading::Used;
                Scan::End
            }
        }
    }

    /// Drops what is left to read. Takes no memory.
    fn drop_rest(&mut self)
        ensures { self.new ≡ without_bytes self.old }
    {
        self.reading = match self.reading {
            Reading::Whole | Reading::Dropped => Reading::Dropped,
            Reading::Used => Reading::Used,
        };
    }

    /// The number of the present line, which is 1 where no line was begun.
    fn line(&self) -> u32
        ensures { result ≡ max self.now.number 1 }
    {
        self.scanner.line()
    }
}

/// What stands next in a text, if there is one.
pub(crate) fn scan(text: &mut Option<Text>, cats: &Cats, end: i32) -> Scan
    ensures { AfterScan cats.now end text.old result text.new }
{
    match text {
        Some(text) => text.next(cats, end),
        None => Scan::End,
    }
}

/// Drops what is left to read of a text, if there is one.
pub(crate) fn drop_rest(text: &mut Option<Text>)
    ensures { text.new ≡ dropped text.old }
{
    if let Some(text) = text {
        text.drop_rest();
    }
}

/// The number of the present line of a text, which is 1 where there is none.
pub(crate) fn line(text: &Option<Text>) -> u32
    ensures { result ≡ line_number (text_members text.now) }
{
    match text {
        Some(text) => text.line(),
        None => 1,
    }
}
