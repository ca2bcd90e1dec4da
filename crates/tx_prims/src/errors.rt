//! The texts of errors, by number and case. Where *TeX: The Program* has the same error, it is in its
//! words. Names of primitives in the texts are printed with a backslash.
ghost use Rattle.std.specs.Prelude.{◌≡◌, IsTrue, IfOk};
ghost use Rattle.std.specs.List.{list_all};
ghost use Rattle.tx_prims.specs.Errors.{text_of_error, text_with_holes, value_of, value_or_nothing, filled, ends_with_a_point};

use crate::{Key, Table, TableRow};
use std::alloc::{AllocError, Global};

/// The text of an error: the first `len` of `bytes`, with spaces in the others. It ends with a point.
/// An asterisk in it stands for what is filled in there: `first` at the first one, `second` at the
/// second one.
#[derive(Clone, Copy, Debug)]
pub struct ErrorText {
    pub len: u8,
    pub bytes: [u8; 56],
    pub first: Option<Hole>,
    pub second: Option<Hole>,
}

/// What is filled into an error's text.
#[derive(Clone, Copy, Debug, PartialEq, Eq)]
pub enum Hole {
    /// What `\meaning` gives of the command.
    Meaning,
    /// The name meant: a control sequence, an active character, or the character that was misplaced.
    Name,
    /// A number, in decimal.
    Number,
    /// The greatest number that is allowed, in decimal.
    Limit,
    /// The mode: vertical mode, internal vertical mode, horizontal mode, restricted horizontal mode,
    /// display math mode or math mode.
    Mode,
    /// The name of a file.
    File,
    /// A character of a font.
    Character,
    /// The text that `\errmessage` was given.
    Message,
}

/// What may be filled in.
macro_rules! hole {
    () => {
        None
    };
    ($hole:ident) => {
        Some(Hole::$hole)
    };
}

/// The row of an error: its number and the case, counted from 0, the length of the text, the text, and
/// what is filled in at its asterisks.
macro_rules! error {
    ($number:literal / $case:literal, $len:literal $text:literal $(, $first:ident $($second:ident)?)?) => {
        TableRow {
            key: Key {
                len: 2,
                bytes: [
                    $number, $case, 0, 0, 0, 0, 0, 0, 0, 0, 0, 0, 0, 0, 0, 0, 0, 0, 0, 0, 0, 0, 0, 0,
                ],
            },
            row: ErrorText {
                len: $len,
                bytes: *$text,
                first: hole!($($first)?),
                second: hole!($($($second)?)?),
            },
        }
    };
}

/// How many texts of errors there are.
pub const ERROR_COUNT: usize = 105;

/// Each text of an error by the two bytes of its number and its case.
pub static ERRORS: [TableRow<ErrorText>; ERROR_COUNT] = [
    error!(1/0, 27 b"Undefined control sequence.                             "),
    error!(2/0, 40 b"Text line contains an invalid character.                "),
    error!(3/0, 13 b"Too many }'s.                                           "),
    error!(4/0, 32 br"Extra }, or forgotten \endgroup.                        "),
    error!(4/1, 24 b"Extra }, or forgotten $.                                "),
    error!(4/2, 29 br"Extra }, or forgotten \right.                           "),
    error!(5/0, 16 br"Extra \endgroup.                                        "),
    error!(6/0, 19 b"Missing } inserted.                                     "),
    error!(6/1, 27 br"Missing \endgroup inserted.                             "),
    error!(6/2, 25 br"Missing \right. inserted.                               "),
    error!(7/0, 34 b"Missing ) inserted for expression.                      "),
    error!(8/0, 19 b"Missing { inserted.                                     "),
    error!(9/0, 32 b"Missing number, treated as zero.                        "),
    error!(10/0, 15 b"Number too big.                                         "),
    error!(11/0, 38 b"Illegal unit of measure (pt inserted).                  "),
    error!(11/1, 38 b"Illegal unit of measure (mu inserted).                  "),
    error!(11/2, 44 b"Illegal unit of measure (replaced by filll).            "),
    error!(12/0, 20 b"Dimension too large.                                    "),
    error!(13/0, 24 b"Incompatible glue units.                                "),
    error!(14/0, 20 b"Arithmetic overflow.                                    "),
    error!(15/0, 22 b"Bad register code (*).                                  ", Number),
    error!(16/0, 23 b"Bad character code (*).                                 ", Number),
    error!(17/0, 15 b"Bad number (*).                                         ", Number),
    error!(17/1, 17 b"Bad mathchar (*).                                       ", Number),
    error!(17/2, 23 b"Bad delimiter code (*).                                 ", Number),
    error!(18/0, 46 b"Invalid code (*), should be in the range 0..*.          ", Number Limit),
    error!(18/1, 38 b"Invalid code (*), should be at most *.                  ", Number Limit),
    error!(19/0, 29 b"Improper alphabetic constant.                           "),
    error!(20/0, 23 b"You can't use `*' in *.                                 ", Meaning Mode),
    error!(20/1, 43 b"You can't use `*' here except with leaders.             ", Meaning),
    error!(20/2, 35 br"You can't use `\unless' before `*'.                     ", Meaning),
    error!(21/0, 29 br"You can't use `*' after \the.                           ", Meaning),
    error!(22/0, 32 b"You can't use a prefix with `*'.                        ", Meaning),
    error!(24/0, 34 b"Missing control sequence inserted.                      "),
    error!(25/0, 33 b"You already have nine parameters.                       "),
    error!(26/0, 42 b"Parameters must be numbered consecutively.              "),
    error!(27/0, 44 b"Illegal parameter number in definition of *.            ", Name),
    error!(28/0, 38 b"Use of * doesn't match its definition.                  ", Name),
    error!(29/0, 29 b"Argument of * has an extra }.                           ", Name),
    error!(30/0, 38 b"Paragraph ended before * was complete.                  ", Name),
    error!(31/0, 35 b"File ended while scanning use of *.                     ", Name),
    error!(31/1, 42 b"File ended while scanning definition of *.              ", Name),
    error!(31/2, 36 b"File ended while scanning text of *.                    ", Name),
    error!(31/3, 40 b"File ended while scanning preamble of *.                ", Name),
    error!(32/0, 48 b"Incomplete *; all text was ignored after line *.        ", Name Number),
    error!(33/0, 10 br"Extra \fi.                                              "),
    error!(33/1, 12 br"Extra \else.                                            "),
    error!(33/2, 10 br"Extra \or.                                              "),
    error!(34/0, 30 br"Missing = inserted for \ifnum.                          "),
    error!(34/1, 30 br"Missing = inserted for \ifdim.                          "),
    error!(35/0, 28 br"Missing \endcsname inserted.                            "),
    error!(35/1, 17 br"Extra \endcsname.                                       "),
    error!(36/0, 32 b"A <box> was supposed to be here.                        "),
    error!(37/0, 35 b"Incompatible list can't be unboxed.                     "),
    error!(38/0, 22 br"\vsplit needs a \vbox.                                  "),
    error!(39/0, 21 br"You can't \insert255.                                   "),
    error!(40/0, 45 b"Infinite glue shrinkage found in a paragraph.           "),
    error!(40/1, 46 b"Infinite glue shrinkage found on current page.          "),
    error!(40/2, 49 b"Infinite glue shrinkage found in box being split.       "),
    error!(41/0, 40 b"Output loop---* consecutive dead cycles.                ", Number),
    error!(42/0, 41 br"Output routine didn't use all of \box255.               "),
    error!(42/1, 20 br"\box255 is not void.                                    "),
    error!(43/0, 26 b"Unbalanced output routine.                              "),
    error!(44/0, 19 b"Missing $ inserted.                                     "),
    error!(45/0, 32 b"Display math should end with $$.                        "),
    error!(46/0, 19 b"Double superscript.                                     "),
    error!(46/1, 17 b"Double subscript.                                       "),
    error!(47/0, 36 b"Ambiguous; you need another { and }.                    "),
    error!(48/0, 31 b"Missing delimiter (. inserted).                         "),
    error!(49/0, 13 br"Extra \right.                                           "),
    error!(50/0, 43 b"Limit controls must follow a math operator.             "),
    error!(51/0, 48 b"Math formula deleted: Insufficient symbol fonts.        "),
    error!(51/1, 51 b"Math formula deleted: Insufficient extension fonts.     "),
    error!(52/0, 39 br"\textfont * is undefined (character *).                 ", Number Character),
    error!(53/0, 41 b"Missing # inserted in alignment preamble.               "),
    error!(53/1, 30 b"Only one # is allowed per tab.                          "),
    error!(53/2, 44 br"Extra alignment tab has been changed to \cr.            "),
    error!(53/3, 21 br"Missing \cr inserted.                                   "),
    error!(53/4, 12 b"Misplaced *.                                            ", Name),
    error!(54/0, 51 b"Font *=* not loadable: Metric (TFM) file not found.     ", Name File),
    error!(54/1, 45 b"Font *=* not loadable: Bad metric (TFM) file.           ", Name File),
    error!(55/0, 22 b"I can't find file `*'.                                  ", File),
    error!(56/0, 14 br"Bad \patterns.                                          "),
    error!(56/1, 10 b"Nonletter.                                              "),
    error!(56/2, 18 b"Duplicate pattern.                                      "),
    error!(56/3, 23 br"Too late for \patterns.                                 "),
    error!(57/0, 47 b"TeX capacity exceeded, sorry [hash size=65536].         "),
    error!(57/1, 49 b"TeX capacity exceeded, sorry [pool size=4194304].       "),
    error!(57/2, 48 b"TeX capacity exceeded, sorry [buffer size=1024].        "),
    error!(57/3, 51 b"TeX capacity exceeded, sorry [grouping levels=255].     "),
    error!(57/4, 56 b"TeX capacity exceeded, sorry [input stack size=1000000]."),
    error!(57/5, 50 b"TeX capacity exceeded, sorry [main memory size=*].      ", Number),
    error!(57/6, 56 b"TeX capacity exceeded, sorry [parameter stack size=500]."),
    error!(57/7, 51 b"TeX capacity exceeded, sorry [node memory=2000000].     "),
    error!(57/8, 49 b"TeX capacity exceeded, sorry [box memory=100000].       "),
    error!(57/9, 47 b"TeX capacity exceeded, sorry [font memory=256].         "),
    error!(57/10, 48 b"TeX capacity exceeded, sorry [box nesting=2000].        "),
    error!(57/11, 49 b"TeX capacity exceeded, sorry [log size=16777216].       "),
    error!(58/0, 30 b"You can't dump inside a group.                          "),
    error!(59/0, 39 b"Region ended inside a group at level *.                 ", Number),
    error!(60/0, 28 b"Improper discretionary list.                            "),
    error!(61/0, 22 br"Improper \spacefactor.                                  "),
    error!(61/1, 20 br"Improper \prevdepth.                                    "),
    error!(62/0, 2 b"*.                                                      ", Message),
    error!(63/0, 30 b"This command is not built yet.                          "),
];

/// The table of errors.
pub fn error_table() -> Table<'static, ERROR_COUNT, ErrorText>
    ensures { result.rows.now ≡ ERRORS }
{
    Table::new(&ERRORS)
}

/// Each text has at most 56 bytes and ends with a point, and only spaces come after it.
pub fn each_text_ends_with_a_point()
    ensures { IsTrue (list_all (λ row. ends_with_a_point row.row) ERRORS) }
{}

/// The text of the error with this number and this case, counted from 0, or None where there is no
/// such error.
#[tactic(auto, unfolding(crate::specs::Errors::text_of_error))]
pub fn error_text(number: u8, case: u8) -> Option<ErrorText>
    ensures { result ≡ text_of_error number case }
{
    error_table().find(&[number, case]).copied()
}

/// What is filled into the text of one error. Only what its text has holes for is read.
#[derive(Clone, Copy, Debug, Default)]
pub struct HoleValues<'a> {
    pub meaning: &'a [u8],
    pub name: &'a [u8],
    pub number: &'a [u8],
    pub limit: &'a [u8],
    pub mode: &'a [u8],
    pub file: &'a [u8],
    pub character: &'a [u8],
    pub message: &'a [u8],
}

impl<'a> HoleValues<'a> {
    /// What is filled into this hole.
    pub fn value(&self, hole: Hole) -> &'a [u8]
        ensures { result.now ≡ value_of self.now hole }
    {
        match hole {
            Hole::Meaning => self.meaning,
            Hole::Name => self.name,
            Hole::Number => self.number,
            Hole::Limit => self.limit,
            Hole::Mode => self.mode,
            Hole::File => self.file,
            Hole::Character => self.character,
            Hole::Message => self.message,
        }
    }

    /// What is filled in where there may be a hole.
    fn value_or_nothing(&self, hole: Option<Hole>) -> &'a [u8]
        ensures { result.now ≡ value_or_nothing (value_of self.now) hole }
    {
        match hole {
            Some(hole) => self.value(hole),
            None => &[],
        }
    }
}

/// What stands for a hole in a text: an asterisk.
const ASTERISK: u8 = b'*';

impl ErrorText {
    /// The text with its asterisks.
    pub fn text(&self) -> &[u8]
        ensures { result.now ≡ text_with_holes self.now }
    {
        &self.bytes[..(self.len as usize).min(self.bytes.len())]
    }

    /// The text in which these values are filled in.
    pub fn filled(&self, alloc: Global, values: &HoleValues) -> Result<Vec<u8>, AllocError>
        ensures { IfOk result (λ line. line.items ≡ filled (value_of values.now) self.now) }
    {
        let mut line = Vec::new(alloc);
        let mut next = self.first;
        let mut last = self.second;
        for byte in self.text() {
            if *byte == ASTERISK {
                line.extend_from_slice(values.value_or_nothing(next))?;
                next = last;
                last = None;
            } else {
                line.push(*byte)?;
            }
        }
        Ok(line)
    }
}
