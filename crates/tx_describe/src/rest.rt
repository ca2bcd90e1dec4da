//! What is left of a description.

ghost use Rattle.std.specs.Prelude.{◌≡◌};
ghost use Rattle.tx_describe.specs.Rests.{name_wanted, content_wanted, wanted, behind, is_finished};

use crate::unread::Unread;
use tx_tok::{ListRef, Tok};
use tx_views::Sense;

/// What a description asks for.
#[derive(Clone, Copy, Debug, PartialEq, Eq)]
pub enum Wanted {
    /// The text of a name, by its number.
    Text(u64),
    /// The content of a list of the pool, by its number.
    Content(u64),
    /// The content of a list of the format, by its place.
    Frozen(u32),
}

/// What is still to be printed.
#[derive(Debug, Drop)]
pub(crate) enum Rest {
    /// Nothing.
    Nothing,
    /// A token by itself.
    Token(Tok),
    /// The tokens of a list that are left.
    Tokens(Unread),
    /// A list whose content is not there yet.
    Content(ListRef),
    /// A meaning.
    Meaning(Sense),
}

impl Rest {
    /// What has to be given before more can be printed, if anything has.
    pub(crate) fn wanted(&self) -> Option<Wanted>
        ensures { result ≡ wanted self.now }
    {
        match self {
            Rest::Nothing => None,
            Rest::Token(token) => name_wanted(*token),
            Rest::Tokens(unread) => first_wanted(unread),
            Rest::Content(list) => content_wanted(*list),
            Rest::Meaning(_) => None,
        }
    }

    /// Whether nothing is left.
    pub(crate) fn is_finished(&self) -> bool
        ensures { result ≡ is_finished self.now }
    {
        match self {
            Rest::Nothing => true,
            Rest::Token(_) => false,
            Rest::Tokens(unread) => unread.first().is_none(),
            Rest::Content(_) => false,
            Rest::Meaning(_) => false,
        }
    }

    /// What is left behind the next piece.
    pub(crate) fn behind(self) -> Self
        ensures { result ≡ behind self }
    {
        match self {
            Rest::Nothing => Rest::Nothing,
            Rest::Token(_) => Rest::Nothing,
            Rest::Tokens(unread) => tokens_behind(unread),
            Rest::Content(_) => Rest::Nothing,
            Rest::Meaning(sense) => meaning_behind(&sense),
        }
    }
}

/// The text of a token's name, if it is one.
fn name_wanted(token: Tok) -> Option<Wanted>
    ensures { result ≡ name_wanted token }
{
    match token {
        Tok::Name(number) => Some(Wanted::Text(number)),
        Tok::Char(_, _) | Tok::Active(_) | Tok::Param(_) | Tok::Stop => None,
    }
}

/// The text of the name that comes first, if it is one.
fn first_wanted(unread: &Unread) -> Option<Wanted>
    ensures { result ≡ wanted (Rest.Tokens unread.now) }
{
    match unread.first() {
        Some(token) => name_wanted(token),
        None => None,
    }
}

/// The content of a list, unless it has no tokens.
fn content_wanted(list: ListRef) -> Option<Wanted>
    ensures { result ≡ content_wanted list }
{
    match list {
        ListRef::Empty => None,
        ListRef::Frozen(place) => Some(Wanted::Frozen(place)),
        ListRef::Pooled(number) => Some(Wanted::Content(number)),
    }
}

/// What is left behind the first token.
fn tokens_behind(mut unread: Unread) -> Rest
    ensures { result ≡ behind (Rest.Tokens unread) }
{
    unread.skip_first();
    Rest::Tokens(unread)
}

/// What is left behind the beginning of a meaning's text.
fn meaning_behind(sense: &Sense) -> Rest
    ensures { result ≡ behind (Rest.Meaning sense.now) }
{
    match sense {
        Sense::Macro(_, _, list) => Rest::Content(*list),
        Sense::Undefined
        | Sense::Primitive(_)
        | Sense::Char(_, _)
        | Sense::Code(_, _)
        | Sense::Register(_, _)
        | Sense::Int(_)
        | Sense::Dim(_)
        | Sense::Glue(_)
        | Sense::List(_) => Rest::Nothing,
    }
}
