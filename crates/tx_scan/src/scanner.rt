//! A text that is scanned line by line.

ghost use Rattle.std.specs.Prelude.{◌≡◌, [], max};
ghost use Rattle.std.specs.Option.{option_to_list};
ghost use Rattle.tx_model.specs.Scanner.{opened, scanned, scanned_from, LineUsed};
ghost use Rattle.tx_scan.specs.Scans.{category_by, AfterNext};

use crate::cats::Cats;
use crate::later::{Begun, InLines, in_lines};
use crate::line::{InLine, Scan, in_line, leave};
use crate::lines::ending_byte;
use std::alloc::Global;
use std::marker::Model;
use tx_bytes::Bytes;
use tx_model::LineState;

/// A text and how far it was scanned, seen as the rest of the text: the unread bytes of its line, its
/// later lines, the number of its line and the scanner's state.
#[derive(Debug, Drop)]
pub struct Scanner {
    alloc: Global,
    text: Bytes,
    /// Where the later lines begin in the text.
    later: usize,
    /// The present line without blanks at its end and with its end's byte.
    line: Bytes,
    /// How many bytes of the line were read.
    read: usize,
    number: u32,
    state: LineState,
}

impl Model for Scanner {
    ghost use Rattle.std.specs.Prelude.{◌≤◌, ◌<◌, ◌^◌, length, drop};
    ghost use Rattle.tx_model.specs.Lines.{lines_of};
    ghost use Rattle.tx_model.specs.Scanner.{Rest};

    ghost Value = { Rest };

    ghost view = { λ s. record { unread = drop s.read s.line; later = lines_of (drop s.later s.text); number = s.number; state = s.state } };

    ghost invariant = { λ s. (s.read ≤ length s.line) × (s.later ≤ length s.text) × (s.number < 2 ^ 31) };
}

impl Scanner {
    /// A text of which no line was begun.
    pub fn new(alloc: Global, text: Bytes) -> Self
        ensures { result ≡ opened text }
    {
        Scanner {
            alloc,
            text,
            later: 0,
            line: Bytes::new(alloc),
            read: 0,
            number: 0,
            state: LineState::NewLine,
        }
    }

    /// What stands next in the text, by these categories. `end` is `\endlinechar`: a line that the
    /// call begins gets that byte at its end, where it is one. After `Memory` nothing is changed; an invalid
    /// byte stays unread. *TeX: The Program*, part 24.
    pub fn next(&mut self, cats: &Cats, end: i32) -> Scan
        ensures { AfterNext (scanned (category_by cats.now) end self.old) self.old result self.new }
    {
        match in_line(
            self.alloc,
            cats,
            self.state,
            self.line.as_slice(),
            self.read,
        ) {
            InLine::Found(what, state, left) => {
                self.read = leave(&mut self.line, left);
                self.state = state;
                what
            }
            InLine::Used => self.next_line(cats, ending_byte(end)),
            InLine::Memory => Scan::Memory,
        }
    }

    /// What stands next in the later lines, where the present one is used up.
    fn next_line(&mut self, cats: &Cats, ending: Option<u8>) -> Scan
        ensures { AfterNext (scanned_from (category_by cats.now) (option_to_list ending) self.old.number LineUsed self.old.later) self.old result self.new }
    {
        let later = self.later;
        match in_lines(
            self.alloc,
            cats,
            ending,
            &self.text.as_slice()[later..],
            self.number,
        ) {
            InLines::Found(what, begun) => {
                let Begun {
                    line,
                    read,
                    state,
                    number,
                    used,
                } = begun;
                self.line = line;
                self.read = read;
                self.state = state;
                self.number = number;
                self.later = later + used;
                what
            }
            InLines::Used(number) => {
                self.read = self.line.len();
                self.later = self.text.len();
                self.number = number;
                self.state = LineState::NewLine;
                Scan::End
            }
            InLines::Memory => Scan::Memory,
        }
    }

    /// Drops the later lines. Takes no memory. *The TeXbook*, chapter 20, `\endinput`.
    pub fn end_input(&mut self)
        ensures { self.new ≡ record self.old { later = [] } }
    {
        self.later = self.text.len();
    }

    /// The number of the present line, which is 1 where no line was begun.
    pub fn line(&self) -> u32
        ensures { result ≡ max self.now.number 1 }
    {
        self.number.max(1)
    }
}
