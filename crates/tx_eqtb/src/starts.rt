//! What addresses mean at the start.

ghost use Rattle.std.specs.Prelude.{◌≡◌};
ghost use Rattle.tx_eqtb.specs.Meanings.{start, start_meanings};

use crate::addr::AddrKind;
use crate::meaning::Meaning;
use std::alloc::Global;
use tx_num::{GlueSpec, Pairs, Sp};
use tx_tok::ListRef;

/// The meanings that addresses have at the start, one for each kind of quantity.
#[derive(Drop)]
pub(crate) struct Starts<B> {
    undefined: Meaning<B>,
    empty: Meaning<B>,
    integer: Meaning<B>,
    dimension: Meaning<B>,
    glue: Meaning<B>,
    list: Meaning<B>,
    font: Meaning<B>,
    shape: Meaning<B>,
}

impl<B> Starts<B> {
    /// The meanings at the start.
    pub(crate) fn new(alloc: Global) -> Self
        ensures { result ≡ start_meanings }
    {
        Starts {
            undefined: Meaning::Undefined,
            empty: Meaning::Held(None),
            integer: Meaning::Int(0),
            dimension: Meaning::Dim(Sp::ZERO),
            glue: Meaning::Glue(GlueSpec::ZERO),
            list: Meaning::List(ListRef::Empty),
            font: Meaning::Font(0),
            shape: Meaning::Shape(Pairs(Vec::new(alloc))),
        }
    }

    /// What an address of a kind means at the start.
    pub(crate) fn at(&self, kind: AddrKind) -> &Meaning<B>
        requires { self.now ≡ start_meanings }
        ensures { result.now ≡ start kind }
    {
        match kind {
            AddrKind::Name | AddrKind::Active => &self.undefined,
            AddrKind::Box => &self.empty,
            AddrKind::Dimen | AddrKind::DimenParam => &self.dimension,
            AddrKind::Skip | AddrKind::Muskip | AddrKind::GlueParam => &self.glue,
            AddrKind::Toks | AddrKind::ToksParam => &self.list,
            AddrKind::CurrentFont | AddrKind::Family => &self.font,
            AddrKind::ParShape => &self.shape,
            AddrKind::Count
            | AddrKind::CatCode
            | AddrKind::LcCode
            | AddrKind::UcCode
            | AddrKind::SfCode
            | AddrKind::MathCode
            | AddrKind::DelCode
            | AddrKind::IntParam => { &self.integer }
        }
    }
}
