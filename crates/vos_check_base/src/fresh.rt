// The blocks that a field may still lead to.
ghost use Rattle.std.specs.Prelude.{◌≡◌, ◌≤◌, ◌+◌, ◌*◌, ℕ, List, [], true, IfOk, IsTrue, is_err};
ghost use Rattle.vos_check_base.specs.Sets.{IsWithout, open_in, open_of};
ghost use Rattle.vos_check_base.specs.Answers.{Finds, MarksIn, content, nothing};
ghost use Rattle.vos_image.specs.Content.{Content, link};
ghost use Rattle.vos_check_base.specs.Health.{IsRead};

use crate::MAP_BYTES;
use crate::bits::{is_clear, without_bit};
use crate::ground::Ground;
use crate::source::Source;
use pmem_pages::refusal::Stopped;
use std::marker::Model;

// Where the map of blocks begins.
const MAP: u64 = 307200;

// The first block behind the map of blocks.
const FIRST_BLOCK: u32 = 1264;

/// The taken blocks that no field led to yet: the bits of a map that are left, of the blocks below an end.
#[derive(Drop)]
pub struct Fresh {
    bytes: [u8; 16384],
    end: u32,
}

impl Model for Fresh {
    ghost use Rattle.std.specs.Prelude.{◌≤◌};
    ghost use Rattle.vos_check_base.specs.Sets.{FreshState};

    ghost Value = { FreshState };

    ghost view = { λ m. record { bytes = m.bytes; end = m.end } };

    ghost invariant = { λ m. m.end ≤ 131072 };
}

// Whether a block is one of them.
fn is_open(bytes: &[u8; 16384], end: u32, block: u32) -> bool
    requires { end ≤ 131072 }
    ensures { result ≡ open_in end bytes.now block }
{
    if block < FIRST_BLOCK {
        return false;
    }
    if end <= block {
        return false;
    }
    !is_clear(bytes[(block / 8) as usize], block % 8)
}

impl Fresh {
    /// All taken blocks of a content, by its map of blocks.
    ///
    /// # Errors
    ///
    /// `Stopped` comes where the map can't be read.
    pub fn new<S: Source>(source: &mut S, ground: &Ground) -> Result<Fresh, Stopped>
        ensures all { IfOk result (λ m. IsTrue S.tells → MarksIn (content ground.now (S.bytes source.old)) (open_of m) []) }
        ensures kept { IsTrue S.tells → S.bytes source.new ≡ S.bytes source.old }
        ensures stops { IsRead S.health S.looked source.old source.new (is_err result) }
    {
        let mut bytes = [0; MAP_BYTES];
        source.read(MAP, &mut bytes)?;
        Ok(Fresh {
            bytes,
            end: (ground.size / 256).min(131072) as u32,
        })
    }

    // Whether a block is one of them.
    fn has(&self, block: u32) -> bool
        ensures { result ≡ open_of self.now block }
    {
        is_open(&self.bytes, self.end, block)
    }

    // Takes a block out.
    fn take(&mut self, block: u32)
        requires { open_of self.old block ≡ true }
        ensures { IsWithout (open_of self.old) block (open_of self.new) }
    {
        let at = (block / 8) as usize;
        self.bytes[at] = without_bit(self.bytes[at], block % 8);
    }

    /// A field at a place leads to a block: to none, or to a taken one that no field before it led to.
    ///
    /// # Errors
    ///
    /// It gives the place where the field leads to another block.
    pub fn lead(&mut self, at: u64, block: u32) -> Result<(), u64>
        ensures { (c : Content) (l : List ℕ) → MarksIn c (open_of self.old) l → Finds c (link c at block l) (open_of self.new) nothing result }
    {
        if block == 0 {
            return Ok(());
        }
        if !self.has(block) {
            return Err(at);
        }
        self.take(block);
        Ok(())
    }

    /// The field at an offset in a block leads to a block.
    ///
    /// # Errors
    ///
    /// It gives the place where the field leads to another block.
    pub fn lead_in(&mut self, block: u32, offset: u8, to: u32) -> Result<(), u64>
        ensures { (c : Content) (l : List ℕ) → MarksIn c (open_of self.old) l → Finds c (link c (256 * block + offset) to l) (open_of self.new) nothing result }
    {
        let at = 256 * u64::from(block) + u64::from(offset);
        self.lead(at, to)
    }
}
