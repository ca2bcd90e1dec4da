//! Keywords.

ghost use Rattle.std.specs.Prelude.{◌≡◌, List};
ghost use Rattle.tx_quant.specs.Items.{Item, Token, Answers};
ghost use Rattle.tx_quant.specs.Keywords.{keyword, keyword_says};

use crate::looking::{Looked, Looking, look};
use tx_num::Feed;
use tx_tok::Tok;

/// The place that stands for no word.
const NO_WORD: u8 = 255;

/// The sets of keywords.
#[derive(Clone, Copy, Debug, PartialEq, Eq)]
pub enum KeySet {
    /// `by`.
    By,
    /// `to` and `spread`.
    Spec,
    /// `at` and `scaled`.
    At,
    /// `plus`.
    Plus,
    /// `minus`.
    Minus,
    /// `width`, `height` and `depth`.
    Rule,
}

/// The look for one of a set of keywords, one token at a time (*TeX: The Program*, section 407).
#[derive(Clone, Copy, Debug)]
pub struct Keyword {
    words: KeySet,
    stage: Looking,
}

impl Keyword {
    /// Looks for a word of this set.
    pub fn new(words: KeySet) -> Self
        ensures { (items : List Item) → keyword_says result items ≡ keyword words items }
    {
        Keyword {
            words,
            stage: Looking::Blank,
        }
    }

    /// Takes an expanded token, in which a name or an active byte that means a space stands as the space.
    /// Spaces before the word are used; the value is the word's place in its set, or 255 where none of
    /// them stands here, and then all that was taken behind the spaces is put back. No call may follow
    /// another answer than More.
    pub fn feed(&mut self, t: Tok) -> Feed<u8>
        ensures { Answers result (keyword_says self.old) (Token t) (keyword_says self.new) }
    {
        match look(self.words, self.stage, t) {
            Looked::On(stage) => {
                self.stage = stage;
                Feed::More(0)
            }
            Looked::Found(word) => Feed::Done(word.place(), 0),
            Looked::Missing(taken) => Feed::Done(NO_WORD, taken),
        }
    }
}
