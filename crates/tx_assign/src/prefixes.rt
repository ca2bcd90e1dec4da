//! What may stand before an assignment.

ghost use Rattle.std.specs.Prelude.{◌≡◌};
ghost use Rattle.std.specs.Option.{option_map};
ghost use Rattle.tx_private.specs.Assignments.{globally};
ghost use Rattle.tx_private.specs.Controls.{with_prefix, defines as is_definition};
ghost use Rattle.tx_assign.specs.Assigned.{prefixes_in};

use tx_prims::primitives::Assignment;

/// The prefixes that an assignment has. *TeX: The Program*, section 1211.
#[derive(Clone, Copy, Debug, PartialEq, Eq)]
pub struct Prefixes {
    /// Whether `\global` stands there.
    pub global: bool,
    /// Whether `\long` does.
    pub long: bool,
    /// Whether `\protected` does.
    pub protected: bool,
}

impl Prefixes {
    /// No prefixes.
    pub const NONE: Prefixes = Prefixes {
        global: false,
        long: false,
        protected: false,
    };
}

/// The prefixes with the one more that an assignment is. None comes exactly where it is no prefix.
/// *TeX: The Program*, section 1211.
pub fn prefix(assignment: Assignment, before: Prefixes) -> Option<Prefixes>
    ensures { option_map prefixes_in result ≡ with_prefix assignment (prefixes_in before) }
{
    match assignment {
        Assignment::Global => Some(Prefixes {
            global: true,
            ..before
        }),
        Assignment::Long => Some(Prefixes {
            long: true,
            ..before
        }),
        Assignment::Protected => Some(Prefixes {
            protected: true,
            ..before
        }),
        _ => None,
    }
}

/// Whether an assignment defines a macro, so that `\long` and `\protected` may stand before it.
/// *TeX: The Program*, section 1213.
pub fn defines(assignment: Assignment) -> bool
    ensures { result ≡ is_definition assignment }
{
    matches!(
        assignment,
        Assignment::Def | Assignment::EDef | Assignment::GDef | Assignment::XDef
    )
}

/// Whether an assignment is global: `\globaldefs` decides it where that is not 0, and else the prefix
/// `\global`. *TeX: The Program*, section 1214.
pub fn is_global(globaldefs: i32, global: bool) -> bool
    ensures { result ≡ globally globaldefs global }
{
    match globaldefs {
        0 => global,
        _ => globaldefs > 0,
    }
}
