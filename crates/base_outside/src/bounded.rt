// Bytes in memory that grow up to a bound.
ghost use Rattle.std.specs.Prelude.{◌≡◌, ◌-◌, [], ◌++◌, length, min, take, IfOk, vec_len, vec_capacity};

use crate::Memory;
use std::alloc::Global;
use std::marker::Model;

/// Bytes that grow at the end, up to a bound. Clauses see the bytes and the bound.
#[derive(Drop)]
pub struct Bounded {
    bytes: Vec<u8>,
    room: usize,
}

impl Model for Bounded {
    ghost use Rattle.std.specs.Prelude.{ℕ, List, ◌≤◌, vec_len, vec_capacity};

    ghost Value = { List ℕ × ℕ };

    ghost view = { λ b. (b.bytes.items, b.room) };

    ghost invariant = { λ b. (vec_len b.bytes ≤ b.room) × (b.room ≤ vec_capacity b.bytes) };
}

impl Bounded {
    /// No bytes, with memory for `room` of them.
    pub fn new(alloc: Global, room: u64) -> Result<Bounded, Memory>
        ensures held { IfOk result (λ b. b.0 ≡ []) }
        ensures room { IfOk result (λ b. b.1 ≡ room) }
    {
        let room = room as usize;
        Ok(Bounded {
            bytes: Vec::with_capacity(alloc, room)?,
            room,
        })
    }

    /// The bytes.
    pub fn bytes(&self) -> &[u8]
        ensures { result.now ≡ self.now.0 }
    {
        self.bytes.as_slice()
    }

    /// Appends as many of the bytes, from the front, as there is room for, and says how many.
    pub fn append(&mut self, more: &[u8]) -> usize
        ensures count { result ≡ min (length more.now) (self.old.1 - length self.old.0) }
        ensures held { self.new.0 ≡ self.old.0 ++ take result more.now }
        ensures room { self.new.1 ≡ self.old.1 }
    {
        let count = more.len().min(self.room - self.bytes.len());
        self.bytes.extend_from_slice(&more[..count]).unwrap();
        count
    }
}
