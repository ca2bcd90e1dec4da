//! Facts on what is known, for callers.

ghost use Rattle.std.specs.Prelude.{◌≡◌, ℕ, Bool, true, Some};
ghost use Rattle.tx_run.specs.declared.op.Op.{Op};
ghost use Rattle.tx_run.specs.Runs.{asked};
ghost use Rattle.tx_run.specs.Knowledge.{KnowsRun, KnowsOperation};

use crate::run::Run;

impl Run {
    /// A fact for callers; it does nothing. What a run has stays known where more names are.
    pub fn knows_more(&self)
        ensures { (names more : ℕ → Bool) → ((n : ℕ) → names n ≡ true → more n ≡ true) → KnowsRun names self.now → KnowsRun more self.now }
    {
        self.scene.knows_more();
    }

    /// A fact for callers; it does nothing. What a run asks for may be asked for.
    pub fn knows_asked(&self)
        ensures { (names : ℕ → Bool) (operation : Op) → KnowsRun names self.now → asked self.now ≡ Some operation → KnowsOperation names operation self.now }
    {}
}
