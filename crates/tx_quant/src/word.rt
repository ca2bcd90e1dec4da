//! The words that readings look for.

ghost use Rattle.std.specs.Prelude.{◌≡◌, ◌<◌, ◌≤◌, length};
ghost use Rattle.tx_quant.specs.WordTexts.{text_of, place_of};

/// A word.
#[derive(Clone, Copy, Debug, PartialEq, Eq)]
pub(crate) enum Word {
    By,
    To,
    Spread,
    At,
    Scaled,
    Plus,
    Minus,
    Width,
    Height,
    Depth,
}

impl Word {
    /// Its letters.
    pub(crate) fn text(self) -> &'static [u8]
        ensures text { result.now ≡ text_of self }
        ensures many { 1 < length (text_of self) }
        ensures few { length (text_of self) ≤ 6 }
    {
        match self {
            Word::By => b"by",
            Word::To => b"to",
            Word::Spread => b"spread",
            Word::At => b"at",
            Word::Scaled => b"scaled",
            Word::Plus => b"plus",
            Word::Minus => b"minus",
            Word::Width => b"width",
            Word::Height => b"height",
            Word::Depth => b"depth",
        }
    }

    /// Its place in its set.
    pub(crate) fn place(self) -> u8
        ensures { result ≡ place_of self }
    {
        match self {
            Word::By | Word::To | Word::At | Word::Plus | Word::Minus | Word::Width => 0,
            Word::Spread | Word::Scaled | Word::Height => 1,
            Word::Depth => 2,
        }
    }
}
