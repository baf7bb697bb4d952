// The map of blocks in memory.
ghost use Rattle.std.specs.Prelude.{◌≡◌, ℕ, ◌+◌, ◌/◌, ◌<◌, ◌≤◌, ◌↔◌, true, false, slice_set, length, IsTrue};
ghost use Rattle.pmem_alloc.specs.Sets.{set_to, count_below, IsLeast};
ghost use Rattle.pmem_alloc.specs.Map.{free_in, free_of, SameBeside};
ghost use Rattle.pmem_alloc.specs.Pages.{IsTakenBlock};

use crate::FIRST_BLOCK;
use crate::bits::{is_clear, with_bit, without_bit};
use std::marker::Model;

/// The bytes of a map, and the first number that is no block's. Free blocks are counted.
#[derive(Drop)]
pub(crate) struct FreeMap {
    bytes: [u8; 16384],
    end: u32,
    count: u32,
    low: u32,
}

impl Model for FreeMap {
    ghost use Rattle.pmem_alloc.specs.Map.{MapState, HoldsMap};

    ghost Value = { MapState };

    ghost view = { λ m. record { bytes = m.bytes; end = m.end } };

    ghost invariant = { λ m. HoldsMap m.bytes m.end m.count m.low };
}

// Whether a block is free.
fn is_free(bytes: &[u8; 16384], end: u32, block: u32) -> bool
    requires { end ≤ 131072 }
    ensures { result ≡ free_in end bytes.now block }
{
    if block < FIRST_BLOCK {
        return false;
    }
    if end <= block {
        return false;
    }
    is_clear(bytes[(block / 8) as usize], block % 8)
}

// How many blocks are free.
fn count_free(bytes: &[u8; 16384], end: u32) -> u32
    requires { end ≤ 131072 }
    ensures { result ≡ count_below (free_in end bytes.now) end }
{
    let mut count = 0;
    for block in 0..end {
        if is_free(bytes, end, block) {
            count += 1;
        }
    }
    count
}

impl FreeMap {
    /// The map that has these bytes.
    pub(crate) fn new(bytes: [u8; 16384], end: u32) -> FreeMap
        requires { end ≤ 131072 }
        ensures { result ≡ record { bytes = bytes; end = end } }
    {
        let count = count_free(&bytes, end);
        FreeMap {
            bytes,
            end,
            count,
            low: 0,
        }
    }

    /// The same map.
    pub(crate) fn copy(&self) -> FreeMap
        ensures { result ≡ self.now }
    {
        FreeMap {
            bytes: self.bytes,
            end: self.end,
            count: self.count,
            low: self.low,
        }
    }

    /// How many blocks are free.
    pub(crate) fn count(&self) -> u32
        ensures { result ≡ count_below (free_of self.now) self.now.end }
    {
        self.count
    }

    /// Whether a block is free.
    pub(crate) fn is_free(&self, block: u32) -> bool
        ensures { result ≡ free_of self.now block }
    {
        is_free(&self.bytes, self.end, block)
    }

    /// Whether it is a block that is taken.
    pub(crate) fn is_taken(&self, block: u32) -> bool
        ensures taken { IsTrue result ↔ IsTakenBlock self.now block }
        ensures small { self.now.end ≤ 131072 }
    {
        FIRST_BLOCK <= block && block < self.end && !is_free(&self.bytes, self.end, block)
    }

    /// The least block that is free.
    pub(crate) fn least(&self) -> u32
        requires { 0 < count_below (free_of self.now) self.now.end }
        ensures least { IsLeast (free_of self.now) result }
        ensures small { result < 131072 }
    {
        for block in self.low..self.end {
            if is_free(&self.bytes, self.end, block) {
                return block;
            }
        }
        unreachable!()
    }

    /// Takes the least free block, and gives its new byte of the map.
    pub(crate) fn take(&mut self, block: u32) -> u8
        requires { IsLeast (free_of self.old) block }
        ensures long { length self.old.bytes ≡ 16384 }
        ensures bytes { self.new ≡ record self.old { bytes = slice_set self.old.bytes (block / 8) result } }
        ensures free { free_of self.new ≡ set_to (free_of self.old) block false }
        ensures beside { SameBeside self.old self.new }
    {
        let at = (block / 8) as usize;
        let byte = with_bit(self.bytes[at], block % 8);
        self.bytes[at] = byte;
        self.count -= 1;
        self.low = block + 1;
        byte
    }

    /// Gives a block back, and gives its new byte of the map.
    pub(crate) fn give(&mut self, block: u32) -> u8
        requires low { 1264 ≤ block }
        requires high { block < self.old.end }
        requires taken { free_of self.old block ≡ false }
        ensures long { length self.old.bytes ≡ 16384 }
        ensures bytes { self.new ≡ record self.old { bytes = slice_set self.old.bytes (block / 8) result } }
        ensures free { free_of self.new ≡ set_to (free_of self.old) block true }
        ensures beside { SameBeside self.old self.new }
    {
        let at = (block / 8) as usize;
        let byte = without_bit(self.bytes[at], block % 8);
        self.bytes[at] = byte;
        self.count += 1;
        self.low = self.low.min(block);
        byte
    }
}
