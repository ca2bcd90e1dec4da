//! What commands look for.

ghost use Rattle.std.specs.Prelude.{◌≡◌};
ghost use Rattle.tx_model.specs.Tokens.{is_left_brace as is_left_brace_in};
ghost use Rattle.tx_private.specs.Assignments.{is_space_token as is_space_token_in};
ghost use Rattle.tx_private.specs.Lists.{is_skipped as is_skipped_in, is_space as is_space_in, is_equals as is_equals_in};
ghost use Rattle.tx_views.specs.Views.{View, viewed};
ghost use Rattle.tx_views.specs.Meanings.{sense_in};

use tx_prims::primitives::{Command as Primitive, Primitive as AnyPrimitive};
use tx_tok::{Cat, Tok};
use tx_views::Sense;

/// Whether what means this is skipped behind a prefix: spaces and `\relax`.
pub(crate) fn is_skipped(sense: &Sense) -> bool
    ensures { (view : View) → result ≡ is_skipped_in (sense_in view sense.now) }
{
    match sense {
        Sense::Char(cat, _) => matches!(cat, Cat::Space),
        Sense::Primitive(primitive) => is_relax(*primitive),
        _ => false,
    }
}

/// Whether a primitive is `\relax`.
fn is_relax(primitive: AnyPrimitive) -> bool
    ensures { (view : View) → result ≡ is_skipped_in (sense_in view (Sense.Primitive primitive)) }
{
    matches!(primitive, AnyPrimitive::Command(Primitive::Relax))
}

/// Whether what means this is a space.
pub(crate) fn is_space(sense: &Sense) -> bool
    ensures { (view : View) → result ≡ is_space_in (sense_in view sense.now) }
{
    match sense {
        Sense::Char(cat, _) => matches!(cat, Cat::Space),
        _ => false,
    }
}

/// Whether a token is a space as it stands.
pub(crate) fn is_space_token(token: Tok) -> bool
    ensures { (view : View) → result ≡ is_space_token_in (viewed view token) }
{
    matches!(token, Tok::Char(Cat::Space, _))
}

/// Whether a token is an equals sign.
pub(crate) fn is_equals(token: Tok) -> bool
    ensures { (view : View) → result ≡ is_equals_in (viewed view token) }
{
    match token {
        Tok::Char(Cat::Other, byte) => byte == b'=',
        _ => false,
    }
}

/// Whether a token begins a group.
pub(crate) fn is_left_brace(token: Tok) -> bool
    ensures { (view : View) → result ≡ is_left_brace_in (viewed view token) }
{
    matches!(token, Tok::Char(Cat::Begin, _))
}
