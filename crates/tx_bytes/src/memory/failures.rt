//! Which calls of an object fail.

ghost use Rattle.std.specs.Prelude.{◌≡◌};
ghost use Rattle.tx_bytes.specs.Memory.{is_failing, after_call, IsNewPlan};

use std::marker::Model;

/// The numbers of the calls that are to fail, counted from 0, how many calls there were and how many
/// of them failed. Both counts stay at 2^64 - 1.
#[derive(Debug, Drop)]
pub struct Failures {
    numbers: Vec<u64>,
    calls: u64,
    faults: u64,
}

impl Model for Failures {
    ghost use Rattle.tx_bytes.specs.Memory.{Plan};

    ghost Value = { Plan };

    ghost view = { λ f. record { failing = f.numbers.items; calls = f.calls; faults = f.faults } };
}

impl Failures {
    /// Before the first call.
    pub fn new(numbers: Vec<u64>) -> Self
        ensures { IsNewPlan numbers.items result }
    {
        Failures {
            numbers,
            calls: 0,
            faults: 0,
        }
    }

    /// Counts a call, and says whether it fails.
    pub fn fails(&mut self) -> bool
        ensures answer { result ≡ is_failing self.old }
        ensures after { self.new ≡ after_call self.old }
    {
        let fails = self.numbers.contains(&self.calls);
        self.calls = self.calls.saturating_add(1);
        if fails {
            self.faults = self.faults.saturating_add(1);
        }
        fails
    }

    /// How many calls failed.
    pub fn faults(&self) -> u64
        ensures { result ≡ self.now.faults }
    {
        self.faults
    }
}
