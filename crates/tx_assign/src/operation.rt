//! What can be computed in a register or a parameter.

ghost use Rattle.std.specs.Prelude.{◌≡◌};
ghost use Rattle.tx_private.specs.Arithmetic.{operand};
ghost use Rattle.tx_views.specs.Views.{View};
ghost use Rattle.tx_views.specs.Places.{address_in};
ghost use Rattle.tx_assign.specs.Values.{kind_in};
ghost use Rattle.tx_assign.specs.Operations.{operation_in};

use crate::kinds::{ValueKind, value_kind};
use tx_views::Place;

/// What is done with a value and an operand. *TeX: The Program*, section 1236.
#[derive(Clone, Copy, Debug, PartialEq, Eq)]
pub enum Operation {
    /// They are added, as by `\advance`.
    Advance,
    /// They are multiplied, as by `\multiply`.
    Multiply,
    /// The value is divided by the operand and cut toward zero, as by `\divide`.
    Divide,
}

/// The kind of value that the operand is: for a sum that of the address, else a number. *TeX: The Program*,
/// sections 1238 and 1240.
pub fn operand_kind(operation: Operation, place: Place) -> ValueKind
    ensures { (view : View) → kind_in result ≡ operand (operation_in operation) (address_in view place) }
{
    match operation {
        Operation::Advance => value_kind(place),
        Operation::Multiply | Operation::Divide => ValueKind::Number,
    }
}
