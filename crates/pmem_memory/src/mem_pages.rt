// Blocks in memory that don't tell what they hold.
ghost use Rattle.std.specs.Prelude.{◌≡◌, ◌≤◌, ◌<◌, ◌+◌, ℕ, IfOk, IsFalse};

use pmem_pages::pages::Pages;
use pmem_pages::refusal::{PageNo, Stopped, TooMuch};
use pmem_pages::steps::Steps;
use std::alloc::{AllocError, Global};
use std::marker::Model;
use std::sync::ledger::Ledger;

// The number of the first block.
const FIRST: u32 = 1264;

/// Some blocks in memory. Each is free at first. It counts the blocks that were read, and it never stops.
#[derive(Drop)]
pub struct MemPages {
    blocks: Vec<[u8; 256]>,
    // of each free block the next free one
    next: Vec<u32>,
    head: u32,
    free: u32,
    ranges: u32,
    bytes: u32,
    reads: u64,
}

impl Model for MemPages {
    ghost use Rattle.pmem_memory.specs.MemPagesState.{MemPagesState};

    ghost Value = { MemPagesState };

    ghost view = { λ p. record { free = p.free; ranges = p.ranges; bytes = p.bytes; reads = p.reads } };
}

impl MemPages {
    /// So many blocks. No range is left to stage, until `grant` gives some.
    ///
    /// # Errors
    ///
    /// `AllocError` comes where there was no memory.
    pub fn new(alloc: Global, count: u32) -> Result<MemPages, AllocError>
        ensures { IfOk result (λ p. p ≡ record { free = count; ranges = 0; bytes = 0; reads = 0 }) }
    {
        let mut blocks = Vec::new(alloc);
        let mut next = Vec::new(alloc);
        for block in 0..count {
            blocks.push([0; 256])?;
            next.push(block.saturating_add(1))?;
        }
        Ok(MemPages {
            blocks,
            next,
            head: 0,
            free: count,
            ranges: 0,
            bytes: 0,
            reads: 0,
        })
    }

    /// Lets so many ranges and bytes be staged.
    pub fn grant(&mut self, ranges: u32, bytes: u32)
        ensures { self.new ≡ record self.old { ranges = ranges; bytes = bytes } }
    {
        self.ranges = ranges;
        self.bytes = bytes;
    }

    /// How many blocks are free.
    pub fn free(&self) -> u32
        ensures { result ≡ self.now.free }
    {
        self.free
    }

    /// How many ranges are left to stage.
    pub fn ranges(&self) -> u32
        ensures { result ≡ self.now.ranges }
    {
        self.ranges
    }

    /// How many blocks were read.
    pub fn reads(&self) -> u64
        ensures { result ≡ self.now.reads }
    {
        self.reads
    }
}

impl Pages for MemPages {
    ghost use Rattle.std.specs.Prelude.{false, None};

    ghost tells = { false };

    ghost blocks = { λ _ _. None };

    ghost budget = { λ s. record { free = s.free; ranges = s.ranges; bytes = s.bytes } };

    ghost stopped = { λ _. false };

    ghost count = { λ _. 0 };

    ghost burns = { λ _. 0 };

    fn read_block<L: Ledger>(
        &mut self,
        block: u32,
        to: &mut [u8; 256],
        steps: &mut Steps<L>,
    ) -> Result<(), Stopped> {
        steps.tick();
        self.reads = self.reads.saturating_add(1);
        match self.blocks.get(block.saturating_sub(FIRST) as usize) {
            Some(bytes) => to.copy_from_slice(bytes),
            None => *to = [0; 256],
        }
        Ok(())
    }

    fn stage_block(&mut self, block: u32, from: &[u8; 256]) -> Result<(), TooMuch> {
        if self.ranges < 1 || self.bytes < 256 {
            return Err(TooMuch);
        }
        self.ranges -= 1;
        self.bytes -= 256;
        if let Some(bytes) = self.blocks.get_mut(block.saturating_sub(FIRST) as usize) {
            *bytes = *from;
        }
        Ok(())
    }

    fn take_block(&mut self) -> Result<u32, PageNo> {
        if self.free == 0 {
            return Err(PageNo::NoBlock);
        }
        if self.ranges < 1 || self.bytes < 1 {
            return Err(PageNo::TooMuch);
        }
        self.ranges -= 1;
        self.bytes -= 1;
        self.free -= 1;
        let taken = self.head;
        self.head = match self.next.get(taken as usize) {
            Some(next) => *next,
            None => 0,
        };
        Ok(taken.saturating_add(FIRST))
    }

    fn give_block(&mut self, block: u32) -> Result<(), TooMuch> {
        if self.ranges < 1 || self.bytes < 1 {
            return Err(TooMuch);
        }
        self.ranges -= 1;
        self.bytes -= 1;
        self.free = self.free.saturating_add(1);
        let given = block.saturating_sub(FIRST);
        if let Some(next) = self.next.get_mut(given as usize) {
            *next = self.head;
        }
        self.head = given;
        Ok(())
    }
}
