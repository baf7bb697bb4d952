// Blocks of a region as the trees above see them.
ghost use Rattle.std.specs.Prelude.{◌≡◌, ◌⊎◌, ◌↔◌, ℕ, ◌+◌, ◌*◌, ◌<◌, ◌≤◌, List, Some, None, replicate, IfOk, IfSome, IsSome, OnOk, OnErr, IsErr, IsErrOf, IsTrue};
ghost use Rattle.pmem_pages.specs.Blocks.{IsTaken, IsSpent, Stops, put};
ghost use Rattle.pmem_pages.specs.declared.refusal.PageNo.TheVariants.{NoBlock, TooMuch as too_much};
ghost use Rattle.pmem_undo.specs.Layout.{IsContent};
ghost use Rattle.pmem_alloc.specs.Blocks.{IsOutsideMap, free_count};
ghost use Rattle.pmem_alloc.specs.Pages.{shown, left, IsTakenBlock};
ghost use Rattle.pmem_alloc.specs.Still.{IsStill};

use crate::blocks::{Blocks, take_one};
use base_outside::region::Region;
use pmem_pages::pages::Pages;
use pmem_pages::refusal::{PageNo, Stopped, TooMuch};
use pmem_pages::steps::Steps;
use std::sync::ledger::Ledger;

impl<R: Region> Blocks<R> {
    // The place of a block, where it is one that is taken.
    fn place_of(&self, block: u32) -> Option<u64>
        ensures place { IfSome result (λ place. place ≡ 256 * block) }
        ensures content { IfSome result (λ place. IsContent (R.extent self.now.undo.region) place 256) }
        ensures outside { IfSome result (λ place. IsOutsideMap place 256) }
        ensures taken { IsSome result ↔ IsTakenBlock self.now.map block }
        ensures start { IsContent (R.extent self.now.undo.region) 0 256 }
    {
        let _size = self.undo.size();
        if self.map.is_taken(block) {
            Some(256 * block as u64)
        } else {
            None
        }
    }
}

/// A block that isn't taken reads as zeros, and staging it or giving it back changes nothing.
impl<R: Region> Pages for Blocks<R> {
    ghost tells = { R.tells };

    ghost blocks = { λ b. shown R.image b };

    ghost budget = { λ b. left b };

    ghost stopped = { λ b. b.undo.stopped };

    ghost count = { λ b. R.count b.undo.region };

    ghost burns = { λ b. R.burns b.undo.region };

    fn read_block<L: Ledger>(
        &mut self,
        block: u32,
        to: &mut [u8; 256],
        steps: &mut Steps<L>,
    ) -> Result<(), Stopped>
        requires { IsTrue R.tells → IsTaken (shown R.image self.old) block }
        ensures bytes { OnOk result (IsTrue R.tells → shown R.image self.old block ≡ Some to.new) }
        ensures kept { IsTrue R.tells → shown R.image self.new ≡ shown R.image self.old }
        ensures budget { left self.new ≡ left self.old }
        ensures step { steps.new ≡ steps.old + 1 }
        ensures stops { Stops self.old.undo.stopped self.new.undo.stopped (R.count self.old.undo.region) (R.count self.new.undo.region)
            (R.burns self.old.undo.region) (R.burns self.new.undo.region) result }
        ensures other { OnOk result ((IsTakenBlock self.old.map block → ⊥) → to.new ≡ replicate 256 0) }
        ensures still { IsStill R.extent R.tells R.image R.may_leave self.old self.new }
    {
        steps.tick();
        match self.place_of(block) {
            Some(place) => self.read(place, to),
            None => {
                self.read(0, to)?;
                *to = [0; 256];
                Ok(())
            }
        }
    }

    fn stage_block(&mut self, block: u32, from: &[u8; 256]) -> Result<(), TooMuch>
        requires { IsTrue R.tells → IsTaken (shown R.image self.old) block }
        ensures staged { OnOk result (IsTrue R.tells → shown R.image self.new ≡ put (shown R.image self.old) block (Some from.now)) }
        ensures kept { OnErr result (IsTrue R.tells → shown R.image self.new ≡ shown R.image self.old) }
        ensures refused { IsErr result ↔ (((left self.old).ranges < 1) ⊎ ((left self.old).bytes < 256)) }
        ensures free { free_count self.new ≡ free_count self.old }
        ensures spent { IsSpent 1 256 (left self.old) (left self.new) }
        ensures stopped { self.new.undo.stopped ≡ self.old.undo.stopped }
        ensures count { R.count self.new.undo.region ≡ R.count self.old.undo.region }
        ensures burns { R.burns self.new.undo.region ≡ R.burns self.old.undo.region }
        ensures other { (IsTakenBlock self.old.map block → ⊥) → self.new ≡ self.old }
        ensures still { IsStill R.extent R.tells R.image R.may_leave self.old self.new }
    {
        if !self.undo.has_room(256) {
            return Err(TooMuch);
        }
        match self.place_of(block) {
            Some(place) => self.stage(place, from),
            None => Ok(()),
        }
    }

    fn take_block(&mut self) -> Result<u32, PageNo>
        ensures first { IfOk result (λ b. 1264 ≤ b) }
        ensures was_free { IfOk result (λ b. IsTrue R.tells → shown R.image self.old b ≡ None) }
        ensures taken { IfOk result (λ b. IsTrue R.tells → (bytes : List ℕ) × (shown R.image self.new ≡ put (shown R.image self.old) b (Some bytes))) }
        ensures kept { OnErr result (IsTrue R.tells → shown R.image self.new ≡ shown R.image self.old) }
        ensures no_block { IsErrOf result NoBlock ↔ ((left self.old).free ≡ 0) }
        ensures too_much { IsErrOf result too_much ↔ ((0 < (left self.old).free)
            × (((left self.old).ranges < 1) ⊎ ((left self.old).bytes < 1))) }
        ensures free { OnOk result ((left self.new).free + 1 ≡ (left self.old).free) }
        ensures free_kept { OnErr result ((left self.new).free ≡ (left self.old).free) }
        ensures spent { IsSpent 1 1 (left self.old) (left self.new) }
        ensures stopped { self.new.undo.stopped ≡ self.old.undo.stopped }
        ensures count { R.count self.new.undo.region ≡ R.count self.old.undo.region }
        ensures burns { R.burns self.new.undo.region ≡ R.burns self.old.undo.region }
        ensures still { IsStill R.extent R.tells R.image R.may_leave self.old self.new }
    {
        if self.map.count() == 0 {
            return Err(PageNo::NoBlock);
        }
        if !self.undo.has_room(1) {
            return Err(PageNo::TooMuch);
        }
        Ok(take_one(&mut self.undo, &mut self.map).unwrap())
    }

    fn give_block(&mut self, block: u32) -> Result<(), TooMuch>
        requires { IsTrue R.tells → IsTaken (shown R.image self.old) block }
        ensures given { OnOk result (IsTrue R.tells → shown R.image self.new ≡ put (shown R.image self.old) block None) }
        ensures kept { OnErr result (IsTrue R.tells → shown R.image self.new ≡ shown R.image self.old) }
        ensures refused { IsErr result ↔ (((left self.old).ranges < 1) ⊎ ((left self.old).bytes < 1)) }
        ensures free { OnOk result (IsTrue R.tells → free_count self.new ≡ free_count self.old + 1) }
        ensures free_kept { OnErr result (free_count self.new ≡ free_count self.old) }
        ensures spent { IsSpent 1 1 (left self.old) (left self.new) }
        ensures stopped { self.new.undo.stopped ≡ self.old.undo.stopped }
        ensures count { R.count self.new.undo.region ≡ R.count self.old.undo.region }
        ensures burns { R.burns self.new.undo.region ≡ R.burns self.old.undo.region }
        ensures other { (IsTakenBlock self.old.map block → ⊥) → self.new ≡ self.old }
        ensures still { IsStill R.extent R.tells R.image R.may_leave self.old self.new }
    {
        if !self.undo.has_room(1) {
            return Err(TooMuch);
        }
        match self.place_of(block) {
            Some(_) => self.give(block),
            None => {}
        }
        Ok(())
    }
}
