//! The steps of a region.

ghost use Rattle.std.specs.Prelude.{◌≡◌, ◌≢◌, ◌+◌, ◌≤◌, true, false};

use std::marker::Model;

/// The budget of a region and the steps spent.
#[derive(Debug, Drop)]
pub(crate) struct Steps {
    budget: u32,
    spent: u32,
}

impl Model for Steps {
    ghost use Rattle.std.specs.Prelude.{◌≤◌};
    ghost use Rattle.tx_input.specs.Spent.{StepsOf};

    ghost Value = { StepsOf };

    ghost view = { λ s. record { budget = s.budget; spent = s.spent } };

    ghost invariant = { λ s. s.spent ≤ s.budget };
}

impl Steps {
    /// A budget of which no step is spent.
    pub(crate) fn new(budget: u32) -> Self
        ensures { result ≡ record { budget = budget; spent = 0 } }
    {
        Steps { budget, spent: 0 }
    }

    /// Spends a step. False comes where none is left, and changes nothing.
    pub(crate) fn spend(&mut self) -> bool
        ensures spends { result ≡ true → (self.old.spent ≢ self.old.budget) × (self.new ≡ record self.old { spent = self.old.spent + 1 }) }
        ensures none { result ≡ false → (self.old.spent ≡ self.old.budget) × (self.new ≡ self.old) }
        ensures within { self.new.spent ≤ self.new.budget }
    {
        if self.spent == self.budget {
            return false;
        }
        self.spent += 1;
        true
    }

    /// The steps spent.
    pub(crate) fn spent(&self) -> u32
        ensures spent { result ≡ self.now.spent }
        ensures within { self.now.spent ≤ self.now.budget }
    {
        self.spent
    }

    /// How many steps may be spent.
    pub(crate) fn budget(&self) -> u32
        ensures { result ≡ self.now.budget }
    {
        self.budget
    }
}
