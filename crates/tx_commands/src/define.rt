//! Assignments, by what is read first.

ghost use Rattle.std.specs.Prelude.{◌≡◌, Some};
ghost use Rattle.tx_private.specs.World.{World};
ghost use Rattle.tx_private.specs.Controls.{assignments, names};
ghost use Rattle.tx_views.specs.Views.{View};
ghost use Rattle.tx_assign.specs.Assigned.{prefixes_in, names_by, stands_for_code, made_global as made_global_in};
ghost use Rattle.tx_frames.specs.Knowledge.{Known};
ghost use Rattle.tx_commands.specs.Outcomes.{Makes};
ghost use Rattle.tx_commands.specs.Stages.{coded_or_named};
ghost use Rattle.tx_commands.specs.Knowledge.{KnowsOutcome};

use crate::command::{Arithmetic, Assign, Command, Naming, Standing};
use crate::outcome::Outcome;
use tx_assign::{Defined, Prefixes, codes, defining, register};
use tx_prims::primitives::Assignment;

/// An assignment behind these prefixes. *TeX: The Program*, section 1211.
pub(crate) fn assignment(prefixes: Prefixes, assignment: Assignment) -> Outcome
    ensures becomes { (view : View) (w : World) → Makes view (assignments (prefixes_in prefixes) assignment) w result }
    ensures knows { (known : Known) → KnowsOutcome known result }
{
    match register(assignment) {
        Some(kind) => Outcome::Goes(Command::Assign(prefixes, Assign::Register(kind))),
        None => coded(prefixes, assignment),
    }
}

/// The same of an assignment that is for no register.
fn coded(prefixes: Prefixes, assignment: Assignment) -> Outcome
    ensures becomes { (view : View) (w : World) → Makes view (coded_or_named (prefixes_in prefixes) assignment) w result }
    ensures knows { (known : Known) → KnowsOutcome known result }
{
    match codes(assignment) {
        Some(table) => Outcome::Goes(Command::Assign(prefixes, Assign::Code(table))),
        None => named(prefixes, assignment),
    }
}

/// A command on a name, or arithmetic, behind these prefixes. What isn't built yet is error 63.
fn named(prefixes: Prefixes, assignment: Assignment) -> Outcome
    ensures becomes { (view : View) (w : World) → Makes view (names (prefixes_in prefixes) assignment) w result }
    ensures knows { (known : Known) → KnowsOutcome known result }
{
    match defining(assignment) {
        Some(defined) => begun(prefixes, defined),
        None => Outcome::error(63),
    }
}

/// A command that does this with a name, or by arithmetic.
fn begun(prefixes: Prefixes, defined: Defined) -> Outcome
    ensures becomes { (view : View) (w : World) → Makes view (names_by (prefixes_in prefixes) (Some defined)) w result }
    ensures knows { (known : Known) → KnowsOutcome known result }
{
    match defined {
        Defined::Def { expands, global } => Outcome::Goes(Command::Name(
            made_global(prefixes, global),
            Naming::Define(expands),
        )),
        Defined::Let => Outcome::Goes(Command::Name(prefixes, Naming::Let)),
        Defined::FutureLet => Outcome::Goes(Command::Name(prefixes, Naming::FutureLet)),
        Defined::Code { math } => code(prefixes, math),
        Defined::Register(kind) => {
            Outcome::Goes(Command::Name(prefixes, Naming::Stand(Standing::Register(kind))))
        }
        Defined::Arithmetic(operation) => {
            Outcome::Goes(Command::Arithmetic(prefixes, operation, Arithmetic::Target))
        }
    }
}

/// A name that stands for the code of a character, or for a math code.
fn code(prefixes: Prefixes, math: bool) -> Outcome
    ensures becomes { (view : View) (w : World) → Makes view (stands_for_code (prefixes_in prefixes) math) w result }
    ensures knows { (known : Known) → KnowsOutcome known result }
{
    if math {
        Outcome::Goes(Command::Name(prefixes, Naming::Stand(Standing::MathCharacter)))
    } else {
        Outcome::Goes(Command::Name(prefixes, Naming::Stand(Standing::Character)))
    }
}

/// The prefixes of a definition, which may be global by itself.
fn made_global(prefixes: Prefixes, global: bool) -> Prefixes
    ensures { prefixes_in result ≡ made_global_in global (prefixes_in prefixes) }
{
    Prefixes {
        global: global || prefixes.global,
        ..prefixes
    }
}
