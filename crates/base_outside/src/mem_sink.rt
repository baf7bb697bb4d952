// A sink in memory whose calls fail by their numbers.
ghost use Rattle.std.specs.Prelude.{◌≡◌, ◌-◌, ◌↔◌, [], ◌++◌, length, min, take, IfOk, OnOk, OnErr, IsErr, Contains, Some, Ok};
ghost use Rattle.std.specs.Io.{WritesAtMost};
ghost use Rattle.std.specs.Io.KnownBytes.{WriteAppends};
ghost use Rattle.base_outside.specs.Causes.{HasCause, CountsStalls, StallsOnce, one_more};

use crate::bounded::Bounded;
use crate::failing_calls::FailingCalls;
use crate::sink::Sink;
use crate::{Failed, Memory};
use std::alloc::Global;
use std::marker::Model;

/// A sink in memory. The calls of `write` whose numbers stand in its list fail, counted from 1.
/// Where its room is full the others take nothing.
#[derive(Drop)]
pub struct MemSink {
    kept: Bounded,
    stalls: u64,
    plan: FailingCalls,
}

impl Model for MemSink {
    ghost use Rattle.base_outside.specs.SinkState.{SinkState};

    ghost Value = { SinkState };

    ghost view = { λ s. record {
      held = s.kept.0;
      room = s.kept.1;
      stalls = s.stalls;
      fails = s.plan.fails;
      calls = s.plan.calls;
      faults = s.plan.faults;
    } };
}

impl MemSink {
    /// An empty sink with room for `room` bytes.
    pub fn new(alloc: Global, room: u64, fails: &[u32]) -> Result<MemSink, Memory>
        ensures { IfOk result (λ s. s ≡ record {
          held = [];
          room = room;
          stalls = 0;
          fails = fails.now;
          calls = 0;
          faults = 0;
        }) }
    {
        Ok(MemSink {
            kept: Bounded::new(alloc, room)?,
            stalls: 0,
            plan: FailingCalls::new(alloc, fails)?,
        })
    }

    /// The bytes that it holds.
    pub fn bytes(&self) -> &[u8]
        ensures { result.now ≡ self.now.held }
    {
        self.kept.bytes()
    }
}

impl Sink for MemSink {
    ghost held = { λ s. Some s.held };

    ghost count = { λ s. s.faults };

    ghost stalls = { λ s. s.stalls };

    fn write(&mut self, bytes: &[u8]) -> Result<usize, Failed>
        ensures bound { WritesAtMost result bytes.now }
        ensures bytes { WriteAppends (Some self.old.held) (Some self.new.held) result bytes.now }
        ensures cause { HasCause self.old.faults self.new.faults result }
        ensures stall { CountsStalls self.old.stalls self.new.stalls result bytes.now }

        // Which call fails, and what it leaves: only the counts change.
        ensures fails { IsErr result ↔ Contains self.old.fails self.new.calls }
        ensures list { self.new.fails ≡ self.old.fails }
        ensures calls { self.new.calls ≡ one_more self.old.calls }
        ensures fault { OnErr result (self.new.faults ≡ one_more self.old.faults) }
        ensures kept { OnErr result (self.new.held ≡ self.old.held) }

        // What the others take: as much as there is room for.
        ensures no_fault { OnOk result (self.new.faults ≡ self.old.faults) }
        ensures count { IfOk result (λ n. n ≡
            min (length bytes.now) (self.old.room - length self.old.held)) }
        ensures held { IfOk result (λ n. self.new.held ≡ self.old.held ++ take n bytes.now) }
        ensures room { self.new.room ≡ self.old.room }
        ensures once { StallsOnce self.old.stalls self.new.stalls result bytes.now }
    {
        if self.plan.next_call_fails() {
            return Err(Failed);
        }
        let count = self.kept.append(bytes);
        if count == 0 && !bytes.is_empty() {
            self.stalls = self.stalls.saturating_add(1);
        }
        Ok(count)
    }

    fn faults(&self) -> u64 {
        self.plan.faults()
    }
}
