//! Arithmetic in registers and parameters.

ghost use Rattle.std.specs.Prelude.{◌≡◌, IfOk};
ghost use Rattle.std.specs.Option.{option_map};
ghost use Rattle.tx_private.specs.World.{World};
ghost use Rattle.tx_private.specs.Meanings.{Address};
ghost use Rattle.tx_private.specs.Assignments.{Prefixes, assigns};
ghost use Rattle.tx_private.specs.Arithmetic as private;
ghost use Rattle.tx_private.specs.Arithmetic.{assigns_result, glue_in_range};
ghost use Rattle.tx_views.specs.Views.{View};
ghost use Rattle.tx_views.specs.Meanings.{meaning_in};
ghost use Rattle.tx_assign.specs.Refusals.{led};
ghost use Rattle.tx_assign.specs.Values.{quantity_meaning, IsAmount};
ghost use Rattle.tx_assign.specs.Operations.{operation_in};
ghost use Rattle.tx_assign.specs.Changes.{change_of, IsLawful};

use crate::change::{Change, changed, changed_dimension, changed_glue};
use crate::meanings::of_quantity;
use crate::operation::Operation;
use crate::part::Part;
use crate::refused::Refused;
use tx_eqtb::Meaning;
use tx_node::BoxNode;
use tx_num::{ErrorNo, GlueSpec, Quant, Sp, integer, sum};

/// The result of arithmetic that passes its range.
const OVERFLOW: Refused = Refused {
    number: ErrorNo {
        no: 14,
        case: 0,
        value: 0,
    },
    limit: None,
};

/// What a register or a parameter that holds `old` holds behind `\advance`, `\multiply` or `\divide` by
/// `by`. Of glue the width, the stretch and the shrink are computed each by itself; where two stretches or
/// shrinks of different orders of infinity are added, the higher one counts alone. The only error is 14, an
/// arithmetic overflow: where a result is no integer of TeX, or no dimension, at a division by 0, and at
/// values that don't go together. *TeX: The Program*, sections 1236 to 1240.
pub fn computed(operation: Operation, old: Quant, by: Quant) -> Result<Meaning<BoxNode>, Refused>
    ensures assigns { (view : View) (p : Prefixes) (at : Address) (w : World) → assigns_result p at (private.result (operation_in operation) old by) w ≡ led result (λ m. assigns p at (meaning_in view m) w) w }
    ensures amount { IfOk result IsAmount }
{
    match outcome(operation, old, by) {
        Some(q) => Ok(of_quantity(q)),
        None => Err(OVERFLOW),
    }
}

/// The value that the operation gives. None comes exactly where it gives none.
fn outcome(operation: Operation, old: Quant, by: Quant) -> Option<Quant>
    ensures { option_map quantity_meaning result ≡ private.result (operation_in operation) old by }
{
    match operation {
        Operation::Advance => advanced(old, by),
        Operation::Multiply => multiplied(old, by),
        Operation::Divide => divided(old, by),
    }
}

/// The sum of two values of a kind. None comes where it passes the range, and where they are of different
/// kinds.
fn advanced(old: Quant, by: Quant) -> Option<Quant>
    ensures { option_map quantity_meaning result ≡ private.advanced old by }
{
    match old {
        Quant::Int(n) => advanced_integer(n, by),
        Quant::Dim(d) => advanced_dimension(d, by),
        Quant::Glue(g) => advanced_glue(g, by),
        Quant::Mu(g) => advanced_math_glue(g, by),
    }
}

/// The same of an integer.
fn advanced_integer(n: i32, by: Quant) -> Option<Quant>
    ensures { option_map quantity_meaning result ≡ private.advanced (Quant.Int n) by }
{
    match by {
        Quant::Int(m) => Some(Quant::Int(integer(i64::from(n) + i64::from(m))?)),
        _ => None,
    }
}

/// The same of a dimension.
fn advanced_dimension(d: Sp, by: Quant) -> Option<Quant>
    ensures { option_map quantity_meaning result ≡ private.advanced (Quant.Dim d) by }
{
    match by {
        Quant::Dim(e) => Some(Quant::Dim(sum(d, e)?)),
        _ => None,
    }
}

/// The same of glue.
fn advanced_glue(g: GlueSpec, by: Quant) -> Option<Quant>
    ensures { option_map quantity_meaning result ≡ private.advanced (Quant.Glue g) by }
{
    match by {
        Quant::Glue(h) => Some(Quant::Glue(glue_sum(g, h)?)),
        _ => None,
    }
}

/// The same of math glue.
fn advanced_math_glue(g: GlueSpec, by: Quant) -> Option<Quant>
    ensures { option_map quantity_meaning result ≡ private.advanced (Quant.Mu g) by }
{
    match by {
        Quant::Mu(h) => Some(Quant::Mu(glue_sum(g, h)?)),
        _ => None,
    }
}

/// The sum of two glues. None comes exactly where a part of it is no dimension.
fn glue_sum(g: GlueSpec, h: GlueSpec) -> Option<GlueSpec>
    ensures { result ≡ glue_in_range (private.glue_sum g h) }
{
    let width = sum(g.width, h.width)?;
    let stretch = Part::new(g.stretch, g.stretch_order).plus(Part::new(
        h.stretch,
        h.stretch_order,
    ))?;
    let shrink = Part::new(g.shrink, g.shrink_order).plus(Part::new(h.shrink, h.shrink_order))?;
    Some(GlueSpec {
        width,
        stretch: stretch.amount,
        stretch_order: stretch.infinity,
        shrink: shrink.amount,
        shrink_order: shrink.infinity,
    })
}

/// The product of a value and an integer. None comes where it passes the range, and where the factor is
/// none.
fn multiplied(old: Quant, by: Quant) -> Option<Quant>
    ensures { option_map quantity_meaning result ≡ private.result private.Times old by }
{
    match by {
        Quant::Int(n) => scaled(Change::Times(n), old),
        _ => None,
    }
}

/// The quotient of a value and an integer. None comes where the divisor is 0 or no integer, and where the
/// quotient passes the range.
fn divided(old: Quant, by: Quant) -> Option<Quant>
    ensures { option_map quantity_meaning result ≡ private.result private.Over old by }
{
    match by {
        Quant::Int(0) => None,
        Quant::Int(n) => scaled(Change::Over(n), old),
        _ => None,
    }
}

/// A value, each part of which is changed. None comes exactly where it passes the range.
fn scaled(change: Change, old: Quant) -> Option<Quant>
    requires { IsLawful change }
    ensures { option_map quantity_meaning result ≡ private.scaled (change_of change) old }
{
    match old {
        Quant::Int(n) => Some(Quant::Int(integer(changed(change, n))?)),
        Quant::Dim(d) => Some(Quant::Dim(changed_dimension(change, d)?)),
        Quant::Glue(g) => Some(Quant::Glue(changed_glue(change, g)?)),
        Quant::Mu(g) => Some(Quant::Mu(changed_glue(change, g)?)),
    }
}
