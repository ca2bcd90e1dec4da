//! The pieces of a description's text.

ghost use Rattle.std.specs.Prelude.{◌≡◌, ◌++◌, ◌∷◌, [], ℕ, None, Some, IfOk, if◌then◌else◌};
ghost use Rattle.tx_model.specs.declared.category.Cat.{Cat};
ghost use Rattle.tx_model.specs.Bytes.{blank};
ghost use Rattle.tx_model.specs.Tokens as private;
ghost use Rattle.tx_model.specs.Shown.{shown_name, shown_token, shown_in_list, blank_after};
ghost use Rattle.tx_scan.specs.declared.cats.Cats.{Cats};
ghost use Rattle.tx_scan.specs.Scans.{category_by};
ghost use Rattle.tx_views.specs.Views.{View, IsView, viewed};
ghost use Rattle.tx_describe.specs.declared.rest.Wanted.{Wanted};
ghost use Rattle.tx_describe.specs.Rests.{name_wanted, wanted, behind};
ghost use Rattle.tx_describe.specs.Descriptions.{rest_text};

use crate::meanings::sense_text;
use crate::rest::Rest;
use std::alloc::{AllocError, Global};
use tx_scan::Cats;
use tx_tok::{Cat, Tok, show_tok};

/// The next piece, where nothing has to be given before it.
pub(crate) fn piece(alloc: Global, rest: &Rest, escape: i32) -> Result<Vec<u8>, AllocError>
    requires { wanted rest.now ≡ None }
    ensures { IfOk result (λ piece. (view : View) (cats : Cats) → IsView view → rest_text view cats escape rest.now ≡ piece.items ++ rest_text view cats escape (behind rest.now)) }
{
    match rest {
        Rest::Nothing => Ok(Vec::new(alloc)),
        Rest::Token(token) => token_text(alloc, *token, escape),
        Rest::Tokens(unread) => match unread.first() {
            Some(token) => text_in_list(alloc, token, escape),
            None => Ok(Vec::new(alloc)),
        },
        Rest::Content(_) => Ok(Vec::new(alloc)),
        Rest::Meaning(sense) => sense_text(alloc, sense, escape),
    }
}

/// The next piece, which is that of a name with this text.
pub(crate) fn piece_of_name(
    alloc: Global,
    rest: &Rest,
    escape: i32,
    cats: &Cats,
    name: &[u8],
) -> Result<Vec<u8>, AllocError>
    ensures { IfOk result (λ piece. (view : View) (n : ℕ) → wanted rest.now ≡ Some (Wanted.Text n) → view.naming n ≡ name.now → rest_text view cats.now escape rest.now ≡ piece.items ++ rest_text view cats.now escape (behind rest.now)) }
{
    match rest {
        Rest::Tokens(_) => name_in_list(alloc, name, escape, cats),
        Rest::Nothing | Rest::Token(_) | Rest::Content(_) | Rest::Meaning(_) => name_text(
            alloc, name, escape,
        ),
    }
}

/// A name by itself.
fn name_text(alloc: Global, name: &[u8], escape: i32) -> Result<Vec<u8>, AllocError>
    ensures { IfOk result (λ text. text.items ≡ shown_name escape name.now) }
{
    let mut text = Vec::new(alloc);
    show_tok(Tok::Name(0), name, escape, &mut text)?;
    Ok(text)
}

/// A name in the text of a list.
fn name_in_list(alloc: Global, name: &[u8], escape: i32, cats: &Cats) -> Result<Vec<u8>, AllocError>
    ensures { IfOk result (λ text. text.items ≡ shown_in_list (category_by cats.now) escape (private.Name name.now)) }
{
    let mut text = name_text(alloc, name, escape)?;
    if is_followed(cats, name) {
        text.push(b' ')?;
    }
    Ok(text)
}

/// Whether a blank follows a name in the text of a list. None follows one byte that is no letter.
fn is_followed(cats: &Cats, name: &[u8]) -> bool
    ensures { blank_after (category_by cats.now) name.now ≡ (if result then blank ∷ [] else []) }
{
    match name {
        [byte] => matches!(cats.of(*byte), Cat::Letter),
        _ => true,
    }
}

/// The text of a token that is no name.
fn token_text(alloc: Global, token: Tok, escape: i32) -> Result<Vec<u8>, AllocError>
    requires { name_wanted token ≡ None }
    ensures { IfOk result (λ text. (view : View) → text.items ≡ shown_token escape (viewed view token)) }
{
    let mut text = Vec::new(alloc);
    show_tok(token, b"", escape, &mut text)?;
    Ok(text)
}

/// The text in a list of a token that is no name.
fn text_in_list(alloc: Global, token: Tok, escape: i32) -> Result<Vec<u8>, AllocError>
    requires { name_wanted token ≡ None }
    ensures { IfOk result (λ text. (view : View) (cats : ℕ → Cat) → text.items ≡ shown_in_list cats escape (viewed view token)) }
{
    match token {
        Tok::Char(Cat::Parameter, byte) => Vec::from_slice(alloc, &[byte, byte]),
        Tok::Char(_, _) | Tok::Name(_) | Tok::Active(_) | Tok::Param(_) | Tok::Stop => token_text(
            alloc, token, escape,
        ),
    }
}
