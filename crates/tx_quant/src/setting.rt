//! Which units count.

ghost use Rattle.std.specs.Prelude.{◌≡◌};
ghost use Rattle.tx_quant.specs.Glues.{with_infinite};

use tx_num::Sp;

/// Which units count, and for how much.
#[derive(Clone, Copy, Debug)]
pub(crate) struct Setting {
    /// Whether dimensions are measured in mu.
    pub(crate) math: bool,
    /// Whether `fil`, `fill` and `filll` are units.
    pub(crate) infinite: bool,
    /// One em.
    pub(crate) em: Sp,
    /// One ex.
    pub(crate) ex: Sp,
}

impl Setting {
    /// The same, but infinite units count too.
    pub(crate) fn with_infinite(&self) -> Setting
        ensures { result ≡ with_infinite self.now }
    {
        Setting {
            math: self.math,
            infinite: true,
            em: self.em,
            ex: self.ex,
        }
    }
}
