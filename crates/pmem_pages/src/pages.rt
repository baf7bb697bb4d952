// Blocks as the trees above see them.
ghost use Rattle.std.specs.Prelude.{◌≡◌, ◌⊎◌, ◌↔◌, ℕ, ◌+◌, ◌<◌, ◌≤◌, List, Bool, Some, None, IfOk, OnOk, OnErr, IsErr, IsErrOf, IsTrue};
ghost use Rattle.pmem_pages.specs.Blocks.{Blocks, Budget, IsTaken, IsSpent, Stops, put};
ghost use Rattle.pmem_pages.specs.declared.refusal.PageNo.TheVariants.{NoBlock, TooMuch as too_much};

use crate::refusal::{PageNo, Stopped, TooMuch};
use crate::steps::Steps;
use std::sync::ledger::Ledger;

/// Blocks of 256 bytes. A type may tell the bytes of its blocks.
pub trait Pages {
    /// Whether the type tells its blocks.
    ghost tells: { Bool };

    /// The bytes of each block that is taken.
    ghost blocks: { Self → Blocks };

    /// How many blocks are free, and how many ranges and bytes are left to stage.
    ghost budget: { Self → Budget };

    /// Whether it stopped.
    ghost stopped: { Self → Bool };

    /// How often the outside has failed the region below.
    ghost count: { Self → ℕ };

    /// How often a fuse has failed the region below.
    ghost burns: { Self → ℕ };

    /// Reads a block, with what is staged. It counts one step.
    ///
    /// # Errors
    ///
    /// `Stopped` comes only where a count rose in this call, or it had stopped before.
    fn read_block<L: Ledger>(
        &mut self,
        block: u32,
        to: &mut [u8; 256],
        steps: &mut Steps<L>,
    ) -> Result<(), Stopped>
        requires { IsTrue tells → IsTaken (blocks self.old) block }
        ensures bytes { OnOk result (IsTrue tells → blocks self.old block ≡ Some to.new) }
        ensures kept { IsTrue tells → blocks self.new ≡ blocks self.old }
        ensures budget { budget self.new ≡ budget self.old }
        ensures step { steps.new ≡ steps.old + 1 }
        ensures stops { Stops (stopped self.old) (stopped self.new) (count self.old) (count self.new)
            (burns self.old) (burns self.new) result };

    /// Stages the bytes of a block.
    ///
    /// # Errors
    ///
    /// `TooMuch` comes exactly where no range or fewer than 256 bytes are left to stage.
    fn stage_block(&mut self, block: u32, from: &[u8; 256]) -> Result<(), TooMuch>
        requires { IsTrue tells → IsTaken (blocks self.old) block }
        ensures staged { OnOk result (IsTrue tells → blocks self.new ≡ put (blocks self.old) block (Some from.now)) }
        ensures kept { OnErr result (IsTrue tells → blocks self.new ≡ blocks self.old) }
        ensures refused { IsErr result ↔ (((budget self.old).ranges < 1) ⊎ ((budget self.old).bytes < 256)) }
        ensures free { (budget self.new).free ≡ (budget self.old).free }
        ensures spent { IsSpent 1 256 (budget self.old) (budget self.new) }
        ensures stopped { stopped self.new ≡ stopped self.old }
        ensures count { count self.new ≡ count self.old }
        ensures burns { burns self.new ≡ burns self.old };

    /// Takes a free block. Its bytes are what stood there.
    ///
    /// # Errors
    ///
    /// `NoBlock` comes exactly where no block is free, and else `TooMuch` exactly where no range or no
    /// byte is left to stage.
    fn take_block(&mut self) -> Result<u32, PageNo>
        ensures first { IfOk result (λ b. 1264 ≤ b) }
        ensures was_free { IfOk result (λ b. IsTrue tells → blocks self.old b ≡ None) }
        ensures taken { IfOk result (λ b. IsTrue tells → (bytes : List ℕ) × (blocks self.new ≡ put (blocks self.old) b (Some bytes))) }
        ensures kept { OnErr result (IsTrue tells → blocks self.new ≡ blocks self.old) }
        ensures no_block { IsErrOf result NoBlock ↔ ((budget self.old).free ≡ 0) }
        ensures too_much { IsErrOf result too_much ↔ ((0 < (budget self.old).free)
            × (((budget self.old).ranges < 1) ⊎ ((budget self.old).bytes < 1))) }
        ensures free { OnOk result ((budget self.new).free + 1 ≡ (budget self.old).free) }
        ensures free_kept { OnErr result ((budget self.new).free ≡ (budget self.old).free) }
        ensures spent { IsSpent 1 1 (budget self.old) (budget self.new) }
        ensures stopped { stopped self.new ≡ stopped self.old }
        ensures count { count self.new ≡ count self.old }
        ensures burns { burns self.new ≡ burns self.old };

    /// Gives a block back.
    ///
    /// # Errors
    ///
    /// `TooMuch` comes exactly where no range or no byte is left to stage.
    fn give_block(&mut self, block: u32) -> Result<(), TooMuch>
        requires { IsTrue tells → IsTaken (blocks self.old) block }
        ensures given { OnOk result (IsTrue tells → blocks self.new ≡ put (blocks self.old) block None) }
        ensures kept { OnErr result (IsTrue tells → blocks self.new ≡ blocks self.old) }
        ensures refused { IsErr result ↔ (((budget self.old).ranges < 1) ⊎ ((budget self.old).bytes < 1)) }
        ensures free { OnOk result (IsTrue tells → (budget self.new).free ≡ (budget self.old).free + 1) }
        ensures free_kept { OnErr result ((budget self.new).free ≡ (budget self.old).free) }
        ensures spent { IsSpent 1 1 (budget self.old) (budget self.new) }
        ensures stopped { stopped self.new ≡ stopped self.old }
        ensures count { count self.new ≡ count self.old }
        ensures burns { burns self.new ≡ burns self.old };
}
