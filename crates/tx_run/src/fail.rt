//! Errors that end a region.

ghost use Rattle.std.specs.Prelude.{ℕ, Bool, None, ◌≡◌, pos};
ghost use Rattle.tx_scene.specs.Knowledge.{KnowsScene};
ghost use Rattle.tx_run.specs.Knowledge.{KnowsAfter, Holds};
ghost use Rattle.tx_eqtb.specs.Meanings.{meanings};
ghost use Rattle.tx_private.specs.Errors.{numbered};
ghost use Rattle.tx_environment.specs.Soundness.{IsFirst};
ghost use Rattle.tx_assign.specs.Refusals.{refused_in};
ghost use Rattle.tx_run.specs.Runs.{FailsNow, LeadsFor, IsSoundAfter, Keeps, IsAsked};

use crate::op::Tick;
use crate::run::Run;
use tx_assign::Refused;
use tx_format::Format;
use tx_num::ErrorNo;

impl Run {
    /// Ends the region by an error whose text shows this.
    pub(crate) fn fail(&mut self, format: &Format, number: ErrorNo, shown: &[u8]) -> Tick
        requires first { IsFirst (meanings format.now.frozen) self.old.scene.environment }
        ensures leads { LeadsFor format.now (λ g. FailsNow (meanings format.now.frozen) (record { number = number; shown = shown.now }) g self.old.scene) self.old.scene result self.new }
        ensures sound { IsSoundAfter (meanings format.now.frozen) result self.new }
        ensures keeps { Keeps self.old self.new }
        ensures asked { self.old.fallen ≡ None → IsAsked result self.new }
        ensures knows { (names : ℕ → Bool) → KnowsScene names self.old.scene → KnowsAfter names result self.new }
        ensures holds { Holds self.old self.new }
    {
        match self.scene.fail(format.frozen(), number, shown) {
            Ok(()) => Tick::Failed,
            Err(_) => Tick::Memory,
        }
    }

    /// Ends the region by the error of this number and case, whose text shows this number.
    pub(crate) fn error(&mut self, format: &Format, no: u8, case: u8, value: i64) -> Tick
        requires first { IsFirst (meanings format.now.frozen) self.old.scene.environment }
        ensures leads { LeadsFor format.now (λ g. FailsNow (meanings format.now.frozen) (numbered no case value) g self.old.scene) self.old.scene result self.new }
        ensures sound { IsSoundAfter (meanings format.now.frozen) result self.new }
        ensures keeps { Keeps self.old self.new }
        ensures asked { self.old.fallen ≡ None → IsAsked result self.new }
        ensures knows { (names : ℕ → Bool) → KnowsScene names self.old.scene → KnowsAfter names result self.new }
        ensures holds { Holds self.old self.new }
    {
        self.fail(format, ErrorNo { no, case, value }, b"")
    }

    /// Ends the region by an error that shows a limit, or nothing.
    pub(crate) fn refuse(&mut self, format: &Format, error: Refused) -> Tick
        requires first { IsFirst (meanings format.now.frozen) self.old.scene.environment }
        ensures leads { LeadsFor format.now (λ g. FailsNow (meanings format.now.frozen) (refused_in error) g self.old.scene) self.old.scene result self.new }
        ensures sound { IsSoundAfter (meanings format.now.frozen) result self.new }
        ensures keeps { Keeps self.old self.new }
        ensures asked { self.old.fallen ≡ None → IsAsked result self.new }
        ensures knows { (names : ℕ → Bool) → KnowsScene names self.old.scene → KnowsAfter names result self.new }
        ensures holds { Holds self.old self.new }
    {
        match self.scene.refuse(format.frozen(), error) {
            Ok(()) => Tick::Failed,
            Err(_) => Tick::Memory,
        }
    }

    /// Ends the region because more tokens are pending than may be. *TeX: The Program*, section 321.
    pub(crate) fn overfull(&mut self, format: &Format) -> Tick
        requires first { IsFirst (meanings format.now.frozen) self.old.scene.environment }
        ensures leads { LeadsFor format.now (λ g. FailsNow (meanings format.now.frozen) (numbered 57 4 (pos 0)) g self.old.scene) self.old.scene result self.new }
        ensures sound { IsSoundAfter (meanings format.now.frozen) result self.new }
        ensures keeps { Keeps self.old self.new }
        ensures asked { self.old.fallen ≡ None → IsAsked result self.new }
        ensures knows { (names : ℕ → Bool) → KnowsScene names self.old.scene → KnowsAfter names result self.new }
        ensures holds { Holds self.old self.new }
    {
        self.error(format, 57, 4, 0)
    }
}
