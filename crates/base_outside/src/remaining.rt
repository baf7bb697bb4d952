// Bytes in memory that are read from the front.
ghost use Rattle.std.specs.Prelude.{◌≡◌, ◌+◌, ◌-◌, ◌≤◌, ◌++◌, length, min, take, drop, IfOk};

use crate::Memory;
use std::alloc::Global;
use std::marker::Model;

/// Bytes that are read from the front. Clauses see those that are left.
#[derive(Drop)]
pub struct Remaining {
    bytes: Vec<u8>,
    at: usize,
}

impl Model for Remaining {
    ghost use Rattle.std.specs.Prelude.{List, ℕ, ◌≤◌, drop, vec_len};

    ghost Value = { List ℕ };

    ghost view = { λ r. drop r.at r.bytes.items };

    ghost invariant = { λ r. r.at ≤ vec_len r.bytes };
}

// Copies as many bytes from a place on as there are and as have room.
fn copy_from(from: &[u8], at: usize, to: &mut [u8]) -> usize
    requires { at ≤ length from.now }
    ensures count { result ≡ min (length from.now - at) (length to.old) }
    ensures within { at + result ≤ length from.now }
    ensures taken { to.new ≡ take result (drop at from.now) ++ drop result to.old }
{
    let rest = &from[at..];
    let count = rest.len().min(to.len());
    to[..count].copy_from_slice(&rest[..count]);
    count
}

impl Remaining {
    /// All of the bytes.
    pub fn new(alloc: Global, bytes: &[u8]) -> Result<Remaining, Memory>
        ensures { IfOk result (λ r. r ≡ bytes.now) }
    {
        Ok(Remaining {
            bytes: bytes.to_vec(alloc)?,
            at: 0,
        })
    }

    /// Reads as many bytes as are left and have room, into the front of `buf`.
    pub fn read(&mut self, buf: &mut [u8]) -> usize
        ensures count { result ≡ min (length self.old) (length buf.old) }
        ensures taken { buf.new ≡ take result self.old ++ drop result buf.old }
        ensures left { self.new ≡ drop result self.old }
    {
        let count = copy_from(&self.bytes, self.at, buf);
        self.at += count;
        count
    }
}
