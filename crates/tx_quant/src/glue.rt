//! Glue.

ghost use Rattle.std.specs.Prelude.{◌≡◌, [], List};
ghost use Rattle.tx_num.specs.declared.quantities.Want.{Want};
ghost use Rattle.tx_quant.specs.Items.{Item, Token, Quantity, Asks, Answers};
ghost use Rattle.tx_quant.specs.Glues.{glue_value};
ghost use Rattle.tx_quant.specs.GlueStates.{glue_says};

use crate::dimension_token::wanted;
use crate::glue_quantity::after_quantity;
use crate::glue_stage::GlueStage;
use crate::glue_token::after;
use crate::next::Next;
use crate::setting::Setting;
use tx_num::{Feed, GlueSpec, Quant, Sp, Want};
use tx_tok::Tok;

/// The reading of glue, one token at a time (*TeX: The Program*, section 461).
#[derive(Clone, Copy, Debug)]
pub struct GlueScan {
    setting: Setting,
    stage: GlueStage,
}

impl GlueScan {
    /// Glue of which nothing was taken, measured in mu where `mu` says so. One em and one ex are `em` and
    /// `ex`.
    pub fn new(mu: bool, em: Sp, ex: Sp) -> Self
        ensures { (items : List Item) → glue_says result items ≡ glue_value mu em ex items }
    {
        let setting = Setting {
            math: mu,
            infinite: false,
            em,
            ex,
        };
        GlueScan {
            setting,
            stage: GlueStage::Start,
        }
    }

    /// How the next token is to be taken.
    pub fn wants(&self) -> Want
        ensures { glue_says self.now [] ≡ Asks result 0 }
    {
        match self.stage {
            GlueStage::Start => Want::Start,
            GlueStage::Width(stage) | GlueStage::Stretch(_, stage) | GlueStage::Shrink(_, stage) =>
                { wanted(stage) }
            GlueStage::Plus(_, _) | GlueStage::Minus(_, _) => Want::Expanded,
        }
    }

    /// Takes an expanded token, in which a name or an active byte that means a space stands as the space.
    /// A width is read as a dimension is, then `plus` with a stretch and `minus` with a shrink, where they
    /// stand, and in these `fil`, `fill` and `filll` are units. Where `plus` doesn't stand, More says how
    /// many tokens are put back before `minus` is looked for. The errors are those of a dimension, and 11
    /// at an `l` behind `filll`. No call may follow another answer than More.
    pub fn feed(&mut self, t: Tok) -> Feed<GlueSpec>
        ensures { Answers result (glue_says self.old) (Token t) (glue_says self.new) }
    {
        match after(&self.setting, self.stage, t) {
            Next::More(stage, back) => {
                self.stage = stage;
                Feed::More(back)
            }
            Next::Done(glue, back) => Feed::Done(glue, back),
            Next::Bad(error) => Feed::Bad(error),
        }
    }

    /// Takes an internal quantity, where `wants` says `Start`: glue before which no sign stands is the
    /// value, and another one is taken as a dimension takes it. The errors are those of a dimension, and
    /// 13 at math glue where glue is due, and at glue where math glue is.
    pub fn quantity(&mut self, q: Quant) -> Feed<GlueSpec>
        requires { glue_says self.old [] ≡ Asks Want.Start 0 }
        ensures { Answers result (glue_says self.old) (Quantity q) (glue_says self.new) }
    {
        match after_quantity(&self.setting, self.stage, q) {
            Next::More(stage, back) => {
                self.stage = stage;
                Feed::More(back)
            }
            Next::Done(glue, back) => Feed::Done(glue, back),
            Next::Bad(error) => Feed::Bad(error),
        }
    }
}
