//! Meanings, made of what tokens mean.

ghost use Rattle.std.specs.Prelude.{◌≡◌, IfSome};
ghost use Rattle.tx_private.specs.Meanings as private;
ghost use Rattle.tx_prims.specs.declared.primitives.Primitive.TheVariants as primitive;
ghost use Rattle.tx_prims.specs.declared.primitives.Command.TheVariants as command;
ghost use Rattle.tx_views.specs.Views.{View};
ghost use Rattle.tx_views.specs.Meanings.{meaning_in, sense_in};
ghost use Rattle.tx_frames.specs.Knowledge.{Known, KnowsSense};
ghost use Rattle.tx_commands.specs.Knowledge.{KnowsMeaning};
ghost use Rattle.tx_environment.specs.Holding.{pooled_in, pooled_of};

use tx_eqtb::Meaning;
use tx_node::BoxNode;
use tx_prims::primitives::{Command, Primitive, place_named, primitive_at};
use tx_tok::ListRef;
use tx_views::Sense;

/// The meaning of a token, as an address has it. None comes only for a primitive without a place in the table.
pub(crate) fn meaning_of(sense: Sense) -> Option<Meaning<BoxNode>>
    ensures means { IfSome result (λ m. (view : View) → meaning_in view m ≡ sense_in view sense) }
    ensures knows { IfSome result (λ m. (known : Known) → KnowsSense known sense → KnowsMeaning known m) }
{
    match sense {
        Sense::Undefined => Some(Meaning::Undefined),
        Sense::Primitive(primitive) => primitive_meaning(primitive),
        Sense::Macro(long, protected, list) => Some(Meaning::Macro(long, protected, list)),
        Sense::Char(cat, byte) => Some(Meaning::Char(cat, byte)),
        Sense::Code(math, code) => Some(Meaning::Code(math, code)),
        Sense::Register(kind, no) => Some(Meaning::Register(kind, no)),
        Sense::Int(n) => Some(Meaning::Int(n)),
        Sense::Dim(d) => Some(Meaning::Dim(d)),
        Sense::Glue(g) => Some(Meaning::Glue(g)),
        Sense::List(list) => Some(Meaning::List(list)),
    }
}

/// The meaning of a primitive. None comes only where it has no place in the table.
fn primitive_meaning(primitive: Primitive) -> Option<Meaning<BoxNode>>
    ensures means { IfSome result (λ m. (view : View) → meaning_in view m ≡ private.Prim primitive) }
    ensures knows { IfSome result (λ m. (known : Known) → KnowsMeaning known m) }
{
    let mut place = 0;
    'places: while let Some(other) = primitive_at(place) {
        if other == primitive {
            return Some(Meaning::Prim(place));
        }
        place = place.checked_add(1)?;
    }
    None
}

/// The meaning of `\relax`.
pub(crate) fn relax() -> Option<Meaning<BoxNode>>
    ensures means { IfSome result (λ m. (view : View) → meaning_in view m ≡ private.Prim (primitive.Command command.Relax)) }
    ensures listless { IfSome result (λ m. pooled_of m ≡ None) }
{
    let place = place_named(b"relax")?;
    match primitive_at(place) {
        Some(Primitive::Command(Command::Relax)) => Some(Meaning::Prim(place)),
        _ => None,
    }
}

/// The number of the list of the pool that a meaning has, if it has one.
pub fn pooled(meaning: &Meaning<BoxNode>) -> Option<u64>
    ensures { result ≡ pooled_of meaning.now }
{
    match meaning {
        Meaning::Macro(_, _, list) => pooled_list(*list),
        Meaning::List(list) => pooled_list(*list),
        _ => None,
    }
}

/// The number of a list of the pool, if it is one.
fn pooled_list(list: ListRef) -> Option<u64>
    ensures { result ≡ pooled_in list }
{
    match list {
        ListRef::Pooled(id) => Some(id),
        ListRef::Empty | ListRef::Frozen(_) => None,
    }
}
