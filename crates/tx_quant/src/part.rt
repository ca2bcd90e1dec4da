//! Words of which letters were taken.

ghost use Rattle.std.specs.Prelude.{◌≡◌, ◌<◌, length};
ghost use Rattle.tx_quant.specs.WordTexts.{text_of};

use crate::word::Word;

/// A word of which letters were taken.
#[derive(Clone, Copy, Debug, PartialEq, Eq)]
pub(crate) struct Part {
    /// The word.
    pub(crate) word: Word,
    /// How many of its letters were taken.
    pub(crate) taken: u8,
    ghost open: { taken < length (text_of word) },
}

impl Part {
    /// A word of which the first letter was taken.
    pub(crate) fn begun(word: Word) -> Self
        ensures word { result.word ≡ word }
        ensures taken { result.taken ≡ 1 }
    {
        let _text = word.text();
        Part { word, taken: 1 }
    }
}
