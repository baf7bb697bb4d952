// A source in memory that never fails.
ghost use Rattle.std.specs.Prelude.{◌≡◌, ◌++◌, length, min, take, drop, IfOk, Some, Ok};
ghost use Rattle.std.specs.Io.{ReadsAtMost};
ghost use Rattle.std.specs.Io.KnownBytes.{ReadConsumes};

use crate::remaining::Remaining;
use crate::source::Source;
use crate::{Failed, Memory};
use std::alloc::Global;
use std::marker::Model;

/// A source in memory that never fails. Clauses see the bytes that are left.
#[derive(Drop)]
pub struct SureSource {
    rest: Remaining,
}

impl Model for SureSource {
    ghost use Rattle.std.specs.Prelude.{List, ℕ};

    ghost Value = { List ℕ };

    ghost view = { λ s. s.rest };
}

impl SureSource {
    /// A source of these bytes.
    pub fn new(alloc: Global, bytes: &[u8]) -> Result<SureSource, Memory>
        ensures { IfOk result (λ s. s ≡ bytes.now) }
    {
        Ok(SureSource {
            rest: Remaining::new(alloc, bytes)?,
        })
    }
}

impl Source for SureSource {
    ghost left = { λ s. Some s };

    ghost count = { λ _. 0 };

    fn read(&mut self, buf: &mut [u8]) -> Result<usize, Failed>
        ensures bound { ReadsAtMost result buf.new }
        ensures bytes { ReadConsumes (Some self.old) (Some self.new) result buf.new }
        ensures count { result ≡ Ok (min (length self.old) (length buf.old)) }
        ensures taken { IfOk result (λ n. buf.new ≡ take n self.old ++ drop n buf.old) }
        ensures left { IfOk result (λ n. self.new ≡ drop n self.old) }
    {
        Ok(self.rest.read(buf))
    }

    fn faults(&self) -> u64 {
        0
    }
}
