//! What a token of an argument does.

ghost use Rattle.std.specs.Prelude.{◌≡◌, ◌+◌, ◌≤◌, ◌<◌, ◌^◌, MatchResult, IfOk};
ghost use Rattle.tx_macro.specs.Outcome.{At, Breaks, grown as grown_by, same, level_after, is_blank as blank};

use tx_tok::{Cat, Tok};

/// Whether arguments may have `\par`, and the token `\par`.
#[derive(Clone, Copy, Debug)]
pub struct Rule {
    pub long: bool,
    pub par: Tok,
}

/// Why tokens are not a call.
#[derive(Clone, Copy, Debug, PartialEq, Eq)]
pub enum Misuse {
    /// They are not the parameter text's.
    NoMatch,
    /// A `\par` in an argument of a macro that isn't long.
    ParEnded,
    /// An argument has an extra right brace.
    ExtraBrace,
}

/// Whether two tokens are the same.
pub fn is_same(a: Tok, b: Tok) -> bool
    ensures { result ≡ same a b }
{
    a == b
}

/// The number of open groups after a token that can stand in an argument.
pub fn level(depth: usize, token: Tok) -> usize
    requires { depth < 2 ^ 63 }
    ensures bounded { result ≤ depth + 1 }
    ensures level { result ≡ level_after depth token }
{
    match token {
        Tok::Char(Cat::Begin, _) => depth + 1,
        Tok::Char(Cat::End, _) => depth.saturating_sub(1),
        _ => depth,
    }
}

/// The number of open groups after a token of an argument, or why it can't stand there.
pub fn grow(rule: Rule, depth: usize, token: Tok) -> Result<usize, Misuse>
    requires { depth < 2 ^ 63 }
    ensures bounded { IfOk result (λ n. n ≤ depth + 1) }
    ensures grown { MatchResult result (λ n. grown_by rule depth token ≡ At n) (λ e. grown_by rule depth token ≡ Breaks e) }
{
    if !rule.long && is_same(token, rule.par) {
        return Err(Misuse::ParEnded);
    }
    if depth == 0 && matches!(token, Tok::Char(Cat::End, _)) {
        return Err(Misuse::ExtraBrace);
    }
    Ok(level(depth, token))
}

/// Whether a token is the space token itself, which is skipped before an undelimited argument.
pub fn is_blank(token: Tok) -> bool
    ensures { result ≡ blank token }
{
    matches!(token, Tok::Char(Cat::Space, b' '))
}
