//! Numbers of registers and of bytes.

ghost use Rattle.std.specs.Prelude.{◌≡◌, ℕ, List, ◌∷◌};
ghost use Rattle.tx_private.specs.World.{World};
ghost use Rattle.tx_private.specs.Readings as private;
ghost use Rattle.tx_private.specs.Quantities.{byte_first};
ghost use Rattle.tx_assign.specs.Refusals.{led, number_of};
ghost use Rattle.tx_views.specs.Views.{View};
ghost use Rattle.tx_commands.specs.Items.{item_in};

use crate::item::Item;
use tx_assign::{ByteError, Refused, byte};
use tx_num::{ErrorNo, Quant};

/// The error of what isn't built.
const NOT_BUILT: Refused = Refused {
    number: ErrorNo {
        no: 63,
        case: 0,
        value: 0,
    },
    limit: None,
};

/// The number of a register or of a byte, which an item gives. *TeX: The Program*, sections 433 and 434.
pub(crate) fn numbered(error: ByteError, item: &Item) -> Result<u8, Refused>
    ensures { (view : View) (further : ℕ → List private.Item → World → private.Move) (items : List private.Item) (w : World) → byte_first (number_of error) further (item_in view item.now ∷ items) w ≡ led result (λ n. further n items w) w }
{
    match item {
        Item::Amount(quantity) => number(error, *quantity),
        _ => Err(NOT_BUILT),
    }
}

/// The same of a quantity.
fn number(error: ByteError, quantity: Quant) -> Result<u8, Refused>
    ensures { (view : View) (further : ℕ → List private.Item → World → private.Move) (items : List private.Item) (w : World) → byte_first (number_of error) further (item_in view (Item.Amount quantity) ∷ items) w ≡ led result (λ n. further n items w) w }
{
    match quantity {
        Quant::Int(n) => byte(error, n),
        _ => Err(NOT_BUILT),
    }
}
