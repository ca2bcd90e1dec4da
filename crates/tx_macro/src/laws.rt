//! What is proved of macro calls. Each function here does nothing: its contract is the law.

ghost use Rattle.tx_macro.specs.Laws.{MatchedIsSplit, SplitIsMatched, SplitIsUnique, SubstitutionRestores, SameIsEqual};

/// Tokens that match are split into delimiters and arguments, the shortest ones.
pub fn matched_is_split()
    ensures { MatchedIsSplit }
{}

/// Tokens that are split so match, where the arguments have `\par` only if the macro is long.
pub fn split_is_matched()
    ensures { SplitIsMatched }
{}

/// Tokens are split in one way.
pub fn split_is_unique()
    ensures { SplitIsUnique }
{}

/// The arguments as they stood, in the places of the parameters, give back the tokens of the call.
pub fn substitution_restores()
    ensures { SubstitutionRestores }
{}

/// Tokens that count as the same are equal.
pub fn same_is_equal()
    ensures { SameIsEqual }
{}
