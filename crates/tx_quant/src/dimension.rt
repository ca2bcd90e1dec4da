//! Dimensions.

ghost use Rattle.std.specs.Prelude.{◌≡◌, [], List};
ghost use Rattle.tx_quant.specs.Items.{Item, Token, Quantity, Asks, Answers};
ghost use Rattle.tx_quant.specs.Dimensions.{dimension_value};
ghost use Rattle.tx_quant.specs.DimensionStates.{dimension_says};

use crate::dimension_quantity::after_quantity;
use crate::dimension_stage::DimStage;
use crate::dimension_token::{after, wanted};
use crate::next::Next;
use crate::setting::Setting;
use tx_num::{Feed, Quant, Sp, Want};
use tx_tok::Tok;

/// The reading of a dimension, one token at a time (*TeX: The Program*, section 448).
#[derive(Clone, Copy, Debug)]
pub struct DimScan {
    setting: Setting,
    stage: DimStage,
}

impl DimScan {
    /// A dimension of which nothing was taken, measured in mu where `mu` says so. One em and one ex are
    /// `em` and `ex`.
    pub fn new(mu: bool, em: Sp, ex: Sp) -> Self
        ensures { (items : List Item) → dimension_says result items ≡ dimension_value mu em ex items }
    {
        let setting = Setting {
            math: mu,
            infinite: false,
            em,
            ex,
        };
        DimScan {
            setting,
            stage: DimStage::Sign(false),
        }
    }

    /// How the next token is to be taken.
    pub fn wants(&self) -> Want
        ensures { dimension_says self.now [] ≡ Asks result 0 }
    {
        wanted(self.stage)
    }

    /// Takes an expanded token, in which a name or an active byte that means a space stands as the space.
    /// The value is in scaled points, and below 2^30 in absolute value. The errors are 9 where neither a
    /// digit, a point nor a quantity stands, 10 at the digit before the point that passes 2^31-1, 11 at
    /// the token that fits no unit, and 12 behind a unit where the value is too large. No call may follow
    /// another answer than More.
    pub fn feed(&mut self, t: Tok) -> Feed<Sp>
        ensures { Answers result (dimension_says self.old) (Token t) (dimension_says self.new) }
    {
        match after(&self.setting, self.stage, t) {
            Next::More(stage, back) => {
                self.stage = stage;
                Feed::More(back)
            }
            Next::Done(size, back) => Feed::Done(size.amount, back),
            Next::Bad(error) => Feed::Bad(error),
        }
    }

    /// Takes an internal quantity, where `wants` says `Start`: a dimension or the width of glue, which is
    /// the value or the unit, or an integer, which is a factor. The errors are 11 where an integer stands
    /// for a unit, 12 where the value is too large, and 13 at math glue in an ordinary dimension and at
    /// an ordinary dimension or glue in a math one.
    pub fn quantity(&mut self, q: Quant) -> Feed<Sp>
        requires { dimension_says self.old [] ≡ Asks Want.Start 0 }
        ensures { Answers result (dimension_says self.old) (Quantity q) (dimension_says self.new) }
    {
        match after_quantity(&self.setting, self.stage, q) {
            Next::More(stage, back) => {
                self.stage = stage;
                Feed::More(back)
            }
            Next::Done(size, back) => Feed::Done(size.amount, back),
            Next::Bad(error) => Feed::Bad(error),
        }
    }
}
