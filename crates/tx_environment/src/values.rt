//! What meanings are as values.

ghost use Rattle.std.specs.Prelude.{◌≡◌, IfSome};
ghost use Rattle.tx_private.specs.Environment.{integer_in};
ghost use Rattle.tx_private.specs.Expansions.{list_in as tokens_of};
ghost use Rattle.tx_private.specs.Quantities.{is_math as is_math_address, is_math_parameter as is_measured_in_mu, quantity_in};
ghost use Rattle.tx_views.specs.Views.{View, IsView, list_in};
ghost use Rattle.tx_views.specs.Places.{address_in};
ghost use Rattle.tx_views.specs.Meanings.{meaning_in};
ghost use Rattle.tx_environment.specs.Holding.{pooled_in, pooled_of};

use tx_eqtb::{Meaning, RegKind};
use tx_node::BoxNode;
use tx_num::Quant;
use tx_prims::primitives::GlueParameter;
use tx_tok::ListRef;
use tx_views::Place;

/// The value of an integer, and 0 of anything else.
pub(crate) fn integer_of(meaning: &Meaning<BoxNode>) -> i32
    ensures { (view : View) → result ≡ integer_in (meaning_in view meaning.now) }
{
    match meaning {
        Meaning::Int(n) => *n,
        _ => 0,
    }
}

/// A meaning as a quantity, where glue is math glue or not. What is none counts as the integer 0.
pub(crate) fn quantity_of(meaning: &Meaning<BoxNode>, math: bool) -> Quant
    ensures { (view : View) → result ≡ quantity_in math (meaning_in view meaning.now) }
{
    match meaning {
        Meaning::Int(n) => Quant::Int(*n),
        Meaning::Dim(d) => Quant::Dim(*d),
        Meaning::Glue(g) => { if math { Quant::Mu(*g) } else { Quant::Glue(*g) } }
        _ => Quant::Int(0),
    }
}

/// The list that a meaning is, and that without tokens of anything else.
pub(crate) fn list_of(meaning: &Meaning<BoxNode>) -> ListRef
    ensures means { (view : View) → IsView view → list_in view result ≡ tokens_of (meaning_in view meaning.now) }
    ensures same { IfSome (pooled_in result) (λ id. pooled_of meaning.now ≡ Some id) }
{
    match meaning {
        Meaning::List(list) => *list,
        _ => ListRef::Empty,
    }
}

/// Whether glue at a place is measured in mu. *The TeXbook*, chapter 18.
pub(crate) fn is_math(place: Place) -> bool
    ensures { (view : View) → result ≡ is_math_address (address_in view place) }
{
    match place {
        Place::Register(kind, _) => kind == RegKind::Muskip,
        Place::Glue(parameter) => is_math_parameter(parameter),
        _ => false,
    }
}

/// Whether a parameter is math glue.
fn is_math_parameter(parameter: GlueParameter) -> bool
    ensures { result ≡ is_measured_in_mu parameter }
{
    match parameter {
        GlueParameter::ThinMuSkip | GlueParameter::MedMuSkip | GlueParameter::ThickMuSkip => true,
        _ => false,
    }
}
