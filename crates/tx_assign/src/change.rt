//! What multiplication and division do with each part of a value.

ghost use Rattle.std.specs.Prelude.{◌≡◌};
ghost use Rattle.tx_private.specs.Arithmetic.{glue_in_range, in_parts};
ghost use Rattle.tx_num.specs.Ranges.{dimension};
ghost use Rattle.tx_assign.specs.Changes.{change_of, IsLawful};

use tx_num::{GlueSpec, Sp};

/// What each part of a value is changed by.
#[derive(Clone, Copy, Debug)]
pub(crate) enum Change {
    /// It is multiplied by this.
    Times(i32),
    /// It is divided by this, which is not 0, and cut toward zero.
    Over(i32),
}

/// A part of a value that is changed.
pub(crate) fn changed(change: Change, value: i32) -> i64
    requires { IsLawful change }
    ensures { result ≡ change_of change value }
{
    match change {
        Change::Times(n) => i64::from(value) * i64::from(n),
        Change::Over(n) => i64::from(value) / i64::from(n),
    }
}

/// A dimension that is changed. None comes exactly where it becomes none.
pub(crate) fn changed_dimension(change: Change, d: Sp) -> Option<Sp>
    requires { IsLawful change }
    ensures { result ≡ dimension (change_of change d) }
{
    Sp::from_i64(changed(change, d.get()))
}

/// Glue, each part of which is changed. None comes exactly where one of them becomes no dimension.
pub(crate) fn changed_glue(change: Change, g: GlueSpec) -> Option<GlueSpec>
    requires { IsLawful change }
    ensures { result ≡ glue_in_range (in_parts (change_of change) g) }
{
    let width = changed_dimension(change, g.width)?;
    let stretch = changed_dimension(change, g.stretch)?;
    let shrink = changed_dimension(change, g.shrink)?;
    Some(GlueSpec {
        width,
        stretch,
        shrink,
        ..g
    })
}
