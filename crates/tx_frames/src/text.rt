//! Texts in braces. *TeX: The Program*, sections 473 to 477.

ghost use Rattle.std.specs.Prelude.{◌≡◌, ◌+◌, ◌∷◌, ◌++◌, ◌&&◌, []};
ghost use Rattle.tx_model.specs.Tokens.{is_left_brace, is_right_brace};
ghost use Rattle.tx_private.specs.World.{World};
ghost use Rattle.tx_private.specs.Lists.{is_parameter_token};
ghost use Rattle.tx_tok.specs.declared.tok.Tok.{Tok};
ghost use Rattle.tx_views.specs.Views.{View, viewed};
ghost use Rattle.tx_frames.specs.Frames.{is_body};
ghost use Rattle.tx_frames.specs.Answers.{BecomesGiven};
ghost use Rattle.tx_frames.specs.Texts.{AddsToken, AddsOn, Closes, GoesOnWith};
ghost use Rattle.tx_frames.specs.Knowledge.{Known, KnowsAnswer, KnowsItem, KnowsToken, KnowsTokens, KnowsValue};

use crate::answer::Answer;
use crate::frame::{Frame, Text};
use crate::reading::TextKind;
use crate::value::{Item, Value};
use std::alloc::Global;
use tx_tok::{Cat, Tok, Toks};

/// The most tokens that stand in one list.
const MOST_TOKENS: usize = 262_144;

/// Whether a text is the body of a definition.
fn is_body(kind: TextKind) -> bool
    ensures { result ≡ is_body kind }
{
    match kind {
        TextKind::Body | TextKind::ExpandedBody => true,
        TextKind::Plain | TextKind::Expanded => false,
    }
}

/// A text, with an item more.
pub(crate) fn text_given(alloc: Global, text: Text, item: Item) -> Answer
    ensures becomes { (view : View) (w : World) → BecomesGiven view (Frame.Text text) item w result }
    ensures knows { (known : Known) → KnowsTokens known text.tokens → KnowsItem known item → KnowsAnswer known result }
{
    match item {
        Item::Token(token, _) => token_given(alloc, text, token),
        Item::Given(value) => value_given(alloc, text, value),
        Item::End => Answer::error(63, 0, 0),
    }
}

/// A text, with a value more: a token that can't be expanded, or what `\the` gave.
fn value_given(alloc: Global, text: Text, value: Value) -> Answer
    ensures becomes { (view : View) (w : World) → BecomesGiven view (Frame.Text text) (Item.Given value) w result }
    ensures knows { (known : Known) → KnowsTokens known text.tokens → KnowsValue known value → KnowsAnswer known result }
{
    match value {
        Value::Command(token, _) => token_given(alloc, text, token),
        Value::Tokens(tokens) => tokens_given(alloc, text, tokens),
        Value::TextEnd => { Answer::error(63, 0, 0) }
        Value::Amount(_) => { Answer::error(63, 0, 0) }
        Value::Word(_) => { Answer::error(63, 0, 0) }
        Value::Nothing => { Answer::error(63, 0, 0) }
    }
}

/// A text, with a token more. In the body of a definition a parameter isn't built yet.
fn token_given(alloc: Global, text: Text, token: Tok) -> Answer
    ensures becomes { AddsToken text token result }
    ensures knows { (known : Known) → KnowsTokens known text.tokens → KnowsToken known token → KnowsAnswer known result }
{
    if is_refused(text.kind, token) {
        return Answer::error(63, 0, 0);
    }
    added(alloc, text, token)
}

/// Whether a token can't stand in a text.
fn is_refused(kind: TextKind, token: Tok) -> bool
    ensures { (view : View) → result ≡ (is_body kind && is_parameter_token (viewed view token)) }
{
    is_body(kind) && is_parameter(token)
}

/// A text, with a token more that can stand in it.
fn added(alloc: Global, text: Text, token: Tok) -> Answer
    ensures becomes { AddsOn text token result }
    ensures knows { (known : Known) → KnowsTokens known text.tokens → KnowsToken known token → KnowsAnswer known result }
{
    if is_left_brace(token) {
        return within(alloc, text, token);
    }
    if is_right_brace(token) {
        return closed(alloc, text, token);
    }
    let Text {
        kind,
        groups,
        tokens,
    } = text;
    with_token(alloc, kind, groups, tokens, token)
}

/// A text, with a left brace more.
fn within(alloc: Global, text: Text, token: Tok) -> Answer
    ensures becomes { GoesOnWith text.kind (text.groups + 1) (text.tokens ++ token ∷ []) result }
    ensures knows { (known : Known) → KnowsTokens known text.tokens → KnowsToken known token → KnowsAnswer known result }
{
    let Text {
        kind,
        groups,
        tokens,
    } = text;
    match groups.checked_add(1) {
        Some(more) => with_token(alloc, kind, more, tokens, token),
        // So many groups don't fit into memory.
        None => Answer::Memory,
    }
}

/// A text, with a right brace more, which ends the innermost group in it, or the text.
fn closed(alloc: Global, text: Text, token: Tok) -> Answer
    ensures becomes { Closes text token result }
    ensures knows { (known : Known) → KnowsTokens known text.tokens → KnowsToken known token → KnowsAnswer known result }
{
    let Text {
        kind,
        groups,
        tokens,
    } = text;
    if groups == 0 {
        return Answer::Done(Value::Tokens(tokens), Toks::new(alloc));
    }
    with_token(alloc, kind, groups - 1, tokens, token)
}

/// Whether a token stands for a parameter.
fn is_parameter(token: Tok) -> bool
    ensures { (view : View) → result ≡ is_parameter_token (viewed view token) }
{
    matches!(token, Tok::Char(Cat::Parameter, _))
}

/// Whether a token begins a group.
fn is_left_brace(token: Tok) -> bool
    ensures { (view : View) → result ≡ is_left_brace (viewed view token) }
{
    matches!(token, Tok::Char(Cat::Begin, _))
}

/// Whether a token ends a group.
fn is_right_brace(token: Tok) -> bool
    ensures { (view : View) → result ≡ is_right_brace (viewed view token) }
{
    matches!(token, Tok::Char(Cat::End, _))
}

/// A text in which so many groups are open, with a token more.
fn with_token(alloc: Global, kind: TextKind, groups: usize, tokens: Toks, token: Tok) -> Answer
    ensures becomes { GoesOnWith kind groups (tokens ++ token ∷ []) result }
    ensures knows { (known : Known) → KnowsTokens known tokens → KnowsToken known token → KnowsAnswer known result }
{
    let mut tokens = tokens.0;
    match tokens.push(token) {
        Ok(()) => bounded(alloc, kind, groups, Toks(tokens)),
        Err(_) => Answer::Memory,
    }
}

/// A text, with the tokens that `\the` gave.
fn tokens_given(alloc: Global, text: Text, more: Toks) -> Answer
    ensures becomes { GoesOnWith text.kind text.groups (text.tokens ++ more) result }
    ensures knows { (known : Known) → KnowsTokens known text.tokens → KnowsTokens known more → KnowsAnswer known result }
{
    let Text {
        kind,
        groups,
        tokens,
    } = text;
    let mut tokens = tokens.0;
    match tokens.extend_from_slice(more.as_slice()) {
        Ok(()) => bounded(alloc, kind, groups, Toks(tokens)),
        Err(_) => Answer::Memory,
    }
}

/// A text with these tokens, if they are not too many for one list.
fn bounded(alloc: Global, kind: TextKind, groups: usize, tokens: Toks) -> Answer
    ensures becomes { GoesOnWith kind groups tokens result }
    ensures knows { (known : Known) → KnowsTokens known tokens → KnowsAnswer known result }
{
    if tokens.len() > MOST_TOKENS {
        return Answer::error(57, 5, 262_144);
    }
    Answer::Goes(
        Frame::Text(Text {
            kind,
            groups,
            tokens,
        }),
        Toks::new(alloc),
    )
}
