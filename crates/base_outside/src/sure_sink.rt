// A sink in memory that never fails.
ghost use Rattle.std.specs.Prelude.{◌≡◌, ◌-◌, [], ◌++◌, length, min, take, IfOk, Some, Ok};
ghost use Rattle.std.specs.Io.{WritesAtMost};
ghost use Rattle.std.specs.Io.KnownBytes.{WriteAppends};
ghost use Rattle.base_outside.specs.Causes.{CountsStalls, StallsOnce};

use crate::bounded::Bounded;
use crate::sink::Sink;
use crate::{Failed, Memory};
use std::alloc::Global;
use std::marker::Model;

/// A sink in memory that never fails. Where its room is full it takes nothing.
#[derive(Drop)]
pub struct SureSink {
    kept: Bounded,
    stalls: u64,
}

impl Model for SureSink {
    ghost use Rattle.base_outside.specs.SinkState.{SureSinkState};

    ghost Value = { SureSinkState };

    ghost view = { λ s. record { held = s.kept.0; room = s.kept.1; stalls = s.stalls } };
}

impl SureSink {
    /// An empty sink with room for `room` bytes.
    pub fn new(alloc: Global, room: u64) -> Result<SureSink, Memory>
        ensures { IfOk result (λ s. s ≡ record { held = []; room = room; stalls = 0 }) }
    {
        Ok(SureSink {
            kept: Bounded::new(alloc, room)?,
            stalls: 0,
        })
    }

    /// The bytes that it holds.
    pub fn bytes(&self) -> &[u8]
        ensures { result.now ≡ self.now.held }
    {
        self.kept.bytes()
    }
}

impl Sink for SureSink {
    ghost held = { λ s. Some s.held };

    ghost count = { λ _. 0 };

    ghost stalls = { λ s. s.stalls };

    fn write(&mut self, bytes: &[u8]) -> Result<usize, Failed>
        ensures bound { WritesAtMost result bytes.now }
        ensures bytes { WriteAppends (Some self.old.held) (Some self.new.held) result bytes.now }
        ensures stall { CountsStalls self.old.stalls self.new.stalls result bytes.now }
        ensures count { result ≡
            Ok (min (length bytes.now) (self.old.room - length self.old.held)) }
        ensures held { IfOk result (λ n. self.new.held ≡ self.old.held ++ take n bytes.now) }
        ensures room { self.new.room ≡ self.old.room }
        ensures once { StallsOnce self.old.stalls self.new.stalls result bytes.now }
    {
        let count = self.kept.append(bytes);
        if count == 0 && !bytes.is_empty() {
            self.stalls = self.stalls.saturating_add(1);
        }
        Ok(count)
    }

    fn faults(&self) -> u64 {
        0
    }
}
