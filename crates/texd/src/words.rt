//! The words of the command line.

ghost use Rattle.std.specs.Prelude.{◌≡◌, ◌↔◌, IsTrue, IfSome, IfNone, List, ℕ};
ghost use lib.Chars.{codes};
ghost use Rattle.texd.specs.Top.{IsOnce};

use tx_bytes::Word;

/// How many files may be named.
const MOST_FILES: usize = 256;

/// The names of files behind the word `once`, if the words are that and at most 256 names.
pub fn names_of(words: &[Word]) -> Option<&[Word]>
    ensures some { IfSome result (λ names. IsOnce words.now names.now) }
    ensures none { IfNone result ((names : List (List ℕ)) → IsOnce words.now names → ⊥) }
{
    match words {
        [] => None,
        [command, names @ ..] => {
            if is_once(command) && names.len() <= MOST_FILES {
                Some(names)
            } else {
                None
            }
        }
    }
}

/// Whether a word is `once`.
fn is_once(word: &Word) -> bool
    ensures { IsTrue result ↔ (word.now ≡ codes "once") }
{
    word.as_str() == "once"
}
