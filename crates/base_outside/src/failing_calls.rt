// Which calls of an object in memory fail.
ghost use Rattle.std.specs.Prelude.{◌≡◌, ◌≤◌, ◌↔◌, IsTrue, Contains, IfOk, if◌then◌else◌};
ghost use Rattle.base_outside.specs.Causes.{one_more};

use crate::Memory;
use std::alloc::Global;
use std::marker::Model;

/// The numbers of the calls that fail, counted from 1, and how many calls and failures there were.
#[derive(Drop)]
pub struct FailingCalls {
    fails: Vec<u32>,
    calls: u64,
    faults: u64,
}

impl Model for FailingCalls {
    ghost use Rattle.base_outside.specs.Calls.{Calls};

    ghost Value = { Calls };

    ghost view = { λ p. record { fails = p.fails.items; calls = p.calls; faults = p.faults } };
}

// Whether a call of this number fails.
fn is_among(fails: &[u32], call: u64) -> bool
    ensures { IsTrue result ↔ Contains fails.now call }
{
    fails.iter().any(|fail| u64::from(*fail) == call)
}

impl FailingCalls {
    /// A plan for an object that wasn't called yet.
    pub fn new(alloc: Global, fails: &[u32]) -> Result<FailingCalls, Memory>
        ensures { IfOk result (λ p. p ≡ record { fails = fails.now; calls = 0; faults = 0 }) }
    {
        Ok(FailingCalls {
            fails: fails.to_vec(alloc)?,
            calls: 0,
            faults: 0,
        })
    }

    /// Counts a call, and says whether it fails.
    pub fn next_call_fails(&mut self) -> bool
        ensures fails { IsTrue result ↔ Contains self.old.fails self.new.calls }
        ensures list { self.new.fails ≡ self.old.fails }
        ensures calls { self.new.calls ≡ one_more self.old.calls }
        ensures later { self.old.faults ≤ self.new.faults }
        ensures faults { self.new.faults ≡
            (if result then one_more self.old.faults else self.old.faults) }
    {
        self.calls = self.calls.saturating_add(1);
        let fails = is_among(&self.fails, self.calls);
        if fails {
            self.faults = self.faults.saturating_add(1);
        }
        fails
    }

    /// Counts a failure that isn't planned.
    pub fn add_fault(&mut self)
        ensures counted { self.new ≡ record self.old { faults = one_more self.old.faults } }
        ensures later { self.old.faults ≤ self.new.faults }
    {
        self.faults = self.faults.saturating_add(1);
    }

    /// How many calls failed.
    pub fn faults(&self) -> u64
        ensures { result ≡ self.now.faults }
    {
        self.faults
    }
}
