//! Quantities as meanings.

ghost use Rattle.std.specs.Prelude.{◌≡◌, ℕ, IfOk};
ghost use Rattle.tx_private.specs.Meanings as private;
ghost use Rattle.tx_private.specs.World.{World};
ghost use Rattle.tx_private.specs.Readings.{Amount, Move};
ghost use Rattle.tx_private.specs.Assignments.{as_meaning, code_within};
ghost use Rattle.tx_views.specs.Views.{View};
ghost use Rattle.tx_views.specs.Places.{address_in, table_in};
ghost use Rattle.tx_views.specs.Meanings.{meaning_in};
ghost use Rattle.tx_assign.specs.Refusals.{led};
ghost use Rattle.tx_assign.specs.Values.{quantity_meaning, IsAmount, IsCategoryAt};

use crate::ranges::code;
use crate::refused::Refused;
use tx_eqtb::Meaning;
use tx_node::BoxNode;
use tx_num::Quant;
use tx_views::{CodeTable, Place};

/// The meaning that an address gets from a quantity, which is that quantity. The only error is 18, as
/// `code` has it, where the address is the code of a byte and the integer is no code of the table; so an
/// integer that the code of a category gets is from 0 to 15. *TeX: The Program*, sections 1228, 1232 and
/// 1236.
pub fn meaning(place: Place, q: Quant) -> Result<Meaning<BoxNode>, Refused>
    ensures leads { (view : View) (further : private.Meaning → Move) (w : World) → as_meaning (address_in view place) (Amount q) further w ≡ led result (λ m. further (meaning_in view m)) w }
    ensures category { IfOk result (IsCategoryAt place q) }
    ensures amount { IfOk result IsAmount }
{
    match place {
        Place::Code(table, _) => of_code(table, q),
        _ => Ok(of_quantity(q)),
    }
}

/// The same of the code of a byte.
fn of_code(table: CodeTable, q: Quant) -> Result<Meaning<BoxNode>, Refused>
    ensures leads { (view : View) (b : ℕ) (further : private.Meaning → Move) (w : World) → as_meaning (private.OfCode (table_in table) b) (Amount q) further w ≡ led result (λ m. further (meaning_in view m)) w }
    ensures category { (b : ℕ) → IfOk result (IsCategoryAt (Place.Code table b) q) }
    ensures amount { IfOk result IsAmount }
{
    match q {
        Quant::Int(n) => integer_code(table, n),
        _ => Ok(of_quantity(q)),
    }
}

/// A code as a meaning.
fn integer_code(table: CodeTable, n: i32) -> Result<Meaning<BoxNode>, Refused>
    ensures leads { (view : View) (further : private.Meaning → Move) (w : World) → code_within (table_in table) n (further (private.Integer n)) w ≡ led result (λ m. further (meaning_in view m)) w }
    ensures category { (b : ℕ) → IfOk result (IsCategoryAt (Place.Code table b) (Quant.Int n)) }
    ensures amount { IfOk result IsAmount }
{
    let n = code(table, n)?;
    Ok(Meaning::Int(n))
}

/// A quantity as a meaning.
pub(crate) fn of_quantity(q: Quant) -> Meaning<BoxNode>
    ensures value { (view : View) → meaning_in view result ≡ quantity_meaning q }
    ensures amount { IsAmount result }
{
    match q {
        Quant::Int(n) => Meaning::Int(n),
        Quant::Dim(d) => Meaning::Dim(d),
        Quant::Glue(g) | Quant::Mu(g) => Meaning::Glue(g),
    }
}
