//! What the definitions say of some calls. Each function here does nothing: its contract is computed
//! from the definitions. Each byte of a text is a token: `{` and `}` are braces, a space is a blank,
//! and any other byte a letter.

ghost use Rattle.std.specs.Prelude.{◌≡◌, ◌∷◌, ◌++◌, [], codes, true, false};
ghost use Rattle.tx_macro.specs.declared.rule.Misuse.{Misuse};
ghost use Rattle.tx_macro.specs.Outcome.{Matched, Open, Fails, outcome};
ghost use Rattle.tx_macro.specs.Typed.{typed, par, delimited_by, nine};

/// A delimiter that overlaps itself: `aab` behind `aaab`, in which it is looked for anew at each token.
pub fn overlapping_delimiter()
    ensures first { outcome false par (delimited_by (codes "aab")) (typed (codes "aaab")) ≡ Matched (typed (codes "a") ∷ []) [] }
    ensures empty { outcome false par (delimited_by (codes "aab")) (typed (codes "aabaab")) ≡ Matched ([] ∷ []) (typed (codes "aab")) }
    ensures open { outcome false par (delimited_by (codes "aab")) (typed (codes "aaaa")) ≡ Open }
{}

/// A delimiter within a group doesn't count, nor one that a group cuts.
pub fn delimiter_and_group()
    ensures within { outcome false par (delimited_by (codes "ab")) (typed (codes "x{ab}yab")) ≡ Matched (typed (codes "x{ab}y") ∷ []) [] }
    ensures cut { outcome false par (delimited_by (codes "ab")) (typed (codes "a{}bab")) ≡ Matched (typed (codes "a{}b") ∷ []) [] }
{}

/// The braces of an argument that is one group are dropped, and those of two groups are not.
pub fn braces()
    ensures one { outcome false par (delimited_by (codes "b")) (typed (codes "{{a}a}b")) ≡ Matched (typed (codes "{a}a") ∷ []) [] }
    ensures two { outcome false par (delimited_by (codes "b")) (typed (codes "{a}{a}b")) ≡ Matched (typed (codes "{a}{a}") ∷ []) [] }
    ensures undelimited { outcome false par (delimited_by (codes "")) (typed (codes "  {a}a")) ≡ Matched (typed (codes "a") ∷ []) (typed (codes "a")) }
    ensures empty { outcome false par (delimited_by (codes "")) (typed (codes "{}a")) ≡ Matched ([] ∷ []) (typed (codes "a")) }
{}

/// Nine arguments without delimiters.
pub fn nine_parameters()
    ensures { outcome false par nine (typed (codes "1 23{45}6789a")) ≡ Matched (typed (codes "1") ∷ typed (codes "2") ∷ typed (codes "3") ∷ typed (codes "45") ∷ typed (codes "6") ∷ typed (codes "7") ∷ typed (codes "8") ∷ typed (codes "9") ∷ typed (codes "a") ∷ []) [] }
{}

/// What is no call.
pub fn failures()
    ensures extra_brace { outcome false par (delimited_by (codes "b")) (typed (codes "a{}}b")) ≡ Fails Misuse.ExtraBrace }
    ensures no_argument { outcome false par (delimited_by (codes "")) (typed (codes " }")) ≡ Fails Misuse.ExtraBrace }
    ensures no_match { outcome false par (typed (codes "b") ++ delimited_by (codes "")) (typed (codes "ab")) ≡ Fails Misuse.NoMatch }
    ensures par_ended { outcome false par (delimited_by (codes "b")) (typed (codes "{a") ++ par ∷ typed (codes "}b")) ≡ Fails Misuse.ParEnded }
    ensures long { outcome true par (delimited_by (codes "b")) (typed (codes "a") ++ par ∷ typed (codes "b")) ≡ Matched ((typed (codes "a") ++ par ∷ []) ∷ []) [] }
{}
