//! The look for a keyword.

ghost use Rattle.std.specs.Prelude.{◌≡◌, ℕ};
ghost use Rattle.tx_num.specs.declared.glue.GlueSpec.{GlueSpec};
ghost use Rattle.tx_quant.specs.Items.{Token};
ghost use Rattle.tx_quant.specs.Spelling.{going_on, going_on_with};
ghost use Rattle.tx_quant.specs.Keywords.{Looks, begun, words_of};

use crate::keyword::KeySet;
use crate::part::Part;
use crate::step::{Step, next_letter};
use crate::tokens::{is_space, letter};
use crate::word::Word;
use tx_tok::Tok;

/// How far the look for a keyword is.
#[derive(Clone, Copy, Debug)]
pub(crate) enum Looking {
    /// Only spaces were taken.
    Blank,
    /// Letters of a word were taken.
    Within(Part),
}

/// What a token makes of the look for a keyword.
#[derive(Clone, Copy, Debug)]
pub(crate) enum Looked {
    /// It goes on.
    On(Looking),
    /// This word stands here.
    Found(Word),
    /// None of the words stands here. So many tokens were taken.
    Missing(u8),
}

/// A token where a word of this set is looked for.
pub(crate) fn look(words: KeySet, looking: Looking, t: Tok) -> Looked
    ensures keyword { Looks ℕ result words looking (Token t) }
    ensures glue { Looks GlueSpec result words looking (Token t) }
{
    match looking {
        Looking::Blank => begin(words, t),
        Looking::Within(part) => go_on(words, part, t),
    }
}

/// The first letter, or a space before it.
fn begin(words: KeySet, t: Tok) -> Looked
    ensures keyword { Looks ℕ result words Looking.Blank (Token t) }
    ensures glue { Looks GlueSpec result words Looking.Blank (Token t) }
{
    if is_space(t) {
        return Looked::On(Looking::Blank);
    }
    match first_letter(words, letter(t)) {
        Some(word) => Looked::On(Looking::Within(Part::begun(word))),
        None => Looked::Missing(1),
    }
}

/// A letter within a word.
fn go_on(words: KeySet, part: Part, t: Tok) -> Looked
    ensures keyword { Looks ℕ result words (Looking.Within part) (Token t) }
    ensures glue { Looks GlueSpec result words (Looking.Within part) (Token t) }
{
    match next_letter(part, letter(t)) {
        Step::Found => Looked::Found(part.word),
        Step::Due(more) => Looked::On(Looking::Within(more)),
        Step::Missing(taken) => Looked::Missing(taken),
    }
}

/// The word of a set that begins with this letter.
fn first_letter(words: KeySet, letter: Option<u8>) -> Option<Word>
    ensures { going_on_with letter (words_of words) ≡ begun result }
{
    match letter {
        Some(first) => word_with(words, first),
        None => None,
    }
}

/// The word of a set that begins with this letter.
fn word_with(words: KeySet, first: u8) -> Option<Word>
    ensures { going_on first (words_of words) ≡ begun result }
{
    match words {
        KeySet::By => match first {
            b'b' => Some(Word::By),
            _ => None,
        },
        KeySet::Spec => match first {
            b't' => Some(Word::To),
            b's' => Some(Word::Spread),
            _ => None,
        },
        KeySet::At => match first {
            b'a' => Some(Word::At),
            b's' => Some(Word::Scaled),
            _ => None,
        },
        KeySet::Plus => match first {
            b'p' => Some(Word::Plus),
            _ => None,
        },
        KeySet::Minus => match first {
            b'm' => Some(Word::Minus),
            _ => None,
        },
        KeySet::Rule => match first {
            b'w' => Some(Word::Width),
            b'h' => Some(Word::Height),
            b'd' => Some(Word::Depth),
            _ => None,
        },
    }
}
