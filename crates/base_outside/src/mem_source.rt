// A source in memory whose calls fail by their numbers.
ghost use Rattle.std.specs.Prelude.{◌≡◌, ◌↔◌, ◌++◌, length, min, take, drop, IfOk, OnOk, OnErr, IsErr, Contains, Some, Ok};
ghost use Rattle.std.specs.Io.{ReadsAtMost};
ghost use Rattle.std.specs.Io.KnownBytes.{ReadConsumes};
ghost use Rattle.base_outside.specs.Causes.{HasCause, one_more};

use crate::failing_calls::FailingCalls;
use crate::remaining::Remaining;
use crate::source::Source;
use crate::{Failed, Memory};
use std::alloc::Global;
use std::marker::Model;

/// A source in memory. The calls of `read` whose numbers stand in its list fail, counted from 1.
#[derive(Drop)]
pub struct MemSource {
    rest: Remaining,
    plan: FailingCalls,
}

impl Model for MemSource {
    ghost use Rattle.base_outside.specs.SourceState.{SourceState};

    ghost Value = { SourceState };

    ghost view = { λ s. record {
      left = s.rest;
      fails = s.plan.fails;
      calls = s.plan.calls;
      faults = s.plan.faults;
    } };
}

impl MemSource {
    /// A source of these bytes.
    pub fn new(alloc: Global, bytes: &[u8], fails: &[u32]) -> Result<MemSource, Memory>
        ensures { IfOk result (λ s. s ≡ record {
          left = bytes.now;
          fails = fails.now;
          calls = 0;
          faults = 0;
        }) }
    {
        Ok(MemSource {
            rest: Remaining::new(alloc, bytes)?,
            plan: FailingCalls::new(alloc, fails)?,
        })
    }
}

impl Source for MemSource {
    ghost left = { λ s. Some s.left };

    ghost count = { λ s. s.faults };

    fn read(&mut self, buf: &mut [u8]) -> Result<usize, Failed>
        ensures bound { ReadsAtMost result buf.new }
        ensures bytes { ReadConsumes (Some self.old.left) (Some self.new.left) result buf.new }
        ensures cause { HasCause self.old.faults self.new.faults result }

        // Which call fails, and what it leaves: only the counts change.
        ensures fails { IsErr result ↔ Contains self.old.fails self.new.calls }
        ensures list { self.new.fails ≡ self.old.fails }
        ensures calls { self.new.calls ≡ one_more self.old.calls }
        ensures fault { OnErr result (self.new.faults ≡ one_more self.old.faults) }
        ensures kept { OnErr result (self.new.left ≡ self.old.left) }
        ensures untouched { OnErr result (buf.new ≡ buf.old) }

        // What the others read: as much as is left and has room.
        ensures no_fault { OnOk result (self.new.faults ≡ self.old.faults) }
        ensures count { IfOk result (λ n. n ≡ min (length self.old.left) (length buf.old)) }
        ensures taken { IfOk result (λ n. buf.new ≡ take n self.old.left ++ drop n buf.old) }
        ensures left { IfOk result (λ n. self.new.left ≡ drop n self.old.left) }
    {
        if self.plan.next_call_fails() {
            return Err(Failed);
        }
        Ok(self.rest.read(buf))
    }

    fn faults(&self) -> u64 {
        self.plan.faults()
    }
}
