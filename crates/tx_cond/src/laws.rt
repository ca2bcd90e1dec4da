//! What is proved of skips. Each function here does nothing: its contract is the law.

ghost use Rattle.std.specs.Prelude.{◌≡◌, ◌∷◌, [], true, false};
ghost use Rattle.tx_cond.specs.Skips.{Open, Ended, skip};
ghost use Rattle.tx_cond.specs.Laws.{SkipEndsAtWord, WordEndsSkip};

use crate::skip::{SkipEnd, SkipKind};

/// The rest of a skip begins right after a wanted word, the first one behind balanced tokens.
pub fn skip_ends_at_word()
    ensures { SkipEndsAtWord }
{}

/// A skip ends at the first wanted word behind balanced tokens.
pub fn word_ends_skip()
    ensures { WordEndsSkip }
{}

/// Worked skips: `a\iffalse b\else c\fi\else d` up to the wanted `\else`; the same up to `\fi`, where
/// `\else` isn't wanted; and one that isn't over.
pub fn worked_skips()
    ensures nested { skip (record { or = false; els = true }) (SkipKind.Plain ∷ SkipKind.If ∷ SkipKind.Plain ∷ SkipKind.Else ∷ SkipKind.Plain ∷ SkipKind.Fi ∷ SkipKind.Else ∷ SkipKind.Plain ∷ []) ≡ Ended SkipEnd.Else (SkipKind.Plain ∷ []) }
    ensures passed_over { skip (record { or = true; els = false }) (SkipKind.Else ∷ SkipKind.If ∷ SkipKind.Or ∷ SkipKind.Fi ∷ SkipKind.Fi ∷ SkipKind.Or ∷ []) ≡ Ended SkipEnd.Fi (SkipKind.Or ∷ []) }
    ensures open { skip (record { or = false; els = true }) (SkipKind.If ∷ SkipKind.Fi ∷ SkipKind.Or ∷ []) ≡ Open }
{}
