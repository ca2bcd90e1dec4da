//! What a token means, by itself.

ghost use Rattle.std.specs.Prelude.{◌≡◌};
ghost use Rattle.tx_views.specs.Views.{View};
ghost use Rattle.tx_prims.specs.Primitives.{primitive_at};
ghost use Rattle.tx_views.specs.Meanings.{primitive_in, meaning_in, sense_in};

use tx_eqtb::{Meaning, RegKind};
use tx_num::{GlueSpec, Sp};
use tx_prims::primitives::{Primitive, primitive_at};
use tx_tok::{Cat, ListRef};

/// The meaning of a token at the moment at which it is taken, as a value of its own. *TeX: The Program*,
/// part 24, `cur_cmd` and `cur_chr`.
#[derive(Clone, Copy, Debug, PartialEq, Eq)]
pub enum Sense {
    /// Nothing.
    Undefined,
    /// A primitive.
    Primitive(Primitive),
    /// A macro: whether it is long, whether it is protected, and its text.
    Macro(bool, bool, ListRef),
    /// A character with its category.
    Char(Cat, u8),
    /// A code of a character, which is a math code where the first is true.
    Code(bool, u16),
    /// A register.
    Register(RegKind, u16),
    /// An integer.
    Int(i32),
    /// A dimension.
    Dim(Sp),
    /// Glue.
    Glue(GlueSpec),
    /// A list of tokens.
    List(ListRef),
}

impl Sense {
    /// A meaning as a value of its own. A font, what a box register holds and the shape of a paragraph count as
    /// nothing, as no token means them yet.
    pub fn of<B>(meaning: &Meaning<B>) -> Self
        ensures { (view : View) → sense_in view result ≡ meaning_in view meaning.now }
    {
        match meaning {
            Meaning::Undefined => Sense::Undefined,
            Meaning::Prim(place) => Sense::primitive(*place),
            Meaning::Macro(long, protected, list) => Sense::Macro(*long, *protected, *list),
            Meaning::Char(cat, byte) => Sense::Char(*cat, *byte),
            Meaning::Code(math, code) => Sense::Code(*math, *code),
            Meaning::Register(kind, no) => Sense::Register(*kind, *no),
            Meaning::Font(_) => Sense::Undefined,
            Meaning::Int(n) => Sense::Int(*n),
            Meaning::Dim(d) => Sense::Dim(*d),
            Meaning::Glue(g) => Sense::Glue(*g),
            Meaning::List(list) => Sense::List(*list),
            Meaning::Held(_) => Sense::Undefined,
            Meaning::Shape(_) => Sense::Undefined,
        }
    }

    /// The primitive at a place of the table, or nothing where there is none.
    fn primitive(place: u16) -> Self
        ensures { (view : View) → sense_in view result ≡ primitive_in (primitive_at place) }
    {
        match primitive_at(place) {
            Some(primitive) => Sense::Primitive(primitive),
            None => Sense::Undefined,
        }
    }
}
