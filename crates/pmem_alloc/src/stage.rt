// Blocks on which changes are being staged.
ghost use Rattle.std.specs.Prelude.{◌≡◌, ◌⊎◌, ℕ, IsTrue, OnErr, OnOk};
ghost use Rattle.base_outside.specs.Images.{Image};
ghost use Rattle.pmem_alloc.specs.Map.{MapState};
ghost use Rattle.pmem_alloc.specs.Pages.{shown, left};
ghost use Rattle.pmem_alloc.specs.Still.{IsSince};

use crate::blocks::Blocks;
use base_outside::region::Region;
use pmem_pages::pages::Pages;
use pmem_pages::refusal::{PageNo, Stopped, TooMuch};
use pmem_pages::steps::Steps;
use std::marker::{Brand, Model, PhantomData};
use std::sync::ledger::Ledger;

/// What was so of blocks when a caller began to stage changes on them. The caller picks it, at `Brand`.
pub trait Origin {
    /// How many bytes their region has.
    ghost size: { ℕ };

    /// What was read of their region.
    ghost read: { Image };

    /// The images that a crash could leave.
    ghost left: { Image → Type 0 };

    /// The map at the last commit.
    ghost lasting: { MapState };
}

impl Origin for Brand {
    ghost use Rattle.std.specs.Prelude.{[]};

    ghost size = { 0 };

    ghost read = { λ i. 0 };

    ghost left = { λ c. ⊥ };

    ghost lasting = { record { bytes = []; end = 0 } };
}

/// Blocks on which changes are being staged. Whatever is called on them as pages, what is read of their
/// region stays what it was, no more than before may be left of it, and dropping the stage brings the
/// map back.
#[derive(Drop)]
pub struct Staging<R: Region, O: Origin> {
    blocks: Blocks<R>,
    origin: PhantomData<O>,
}

impl<R: Region, O: Origin> Model for Staging<R, O> {
    ghost use Rattle.pmem_alloc.specs.Blocks.{BlocksState};
    ghost use Rattle.pmem_alloc.specs.Still.{IsSince};

    ghost Value = { BlocksState R };

    ghost view = { λ s. s.blocks };

    ghost invariant = { λ s. IsSince O.size O.read O.left O.lasting (R.extent s.blocks.undo.region) R.tells
        (R.image s.blocks.undo.region) (R.may_leave s.blocks.undo.region) s.blocks.lasting };
}

impl<R: Region, O: Origin> Staging<R, O> {
    /// Blocks of which that is so which the origin says.
    pub fn new(blocks: Blocks<R>) -> Staging<R, O>
        requires { IsSince O.size O.read O.left O.lasting (R.extent blocks.undo.region) R.tells
            (R.image blocks.undo.region) (R.may_leave blocks.undo.region) blocks.lasting }
        ensures { result ≡ blocks }
    {
        Staging {
            blocks,
            origin: PhantomData,
        }
    }

    /// The blocks, with what is staged.
    pub fn into_blocks(self) -> Blocks<R>
        ensures is { result ≡ self }
        ensures since { IsSince O.size O.read O.left O.lasting (R.extent result.undo.region) R.tells
            (R.image result.undo.region) (R.may_leave result.undo.region) result.lasting }
    {
        let Staging {
            blocks,
            origin: _origin,
        } = self;
        blocks
    }
}

impl<R: Region, O: Origin> Pages for Staging<R, O> {
    ghost tells = { R.tells };

    ghost blocks = { λ b. shown R.image b };

    ghost budget = { λ b. left b };

    ghost stopped = { λ b. b.undo.stopped };

    ghost count = { λ b. R.count b.undo.region };

    ghost burns = { λ b. R.burns b.undo.region };

    fn read_block<L: Ledger>(
        &mut self,
        block: u32,
        to: &mut [u8; 256],
        steps: &mut Steps<L>,
    ) -> Result<(), Stopped> {
        self.blocks.read_block(block, to, steps)
    }

    fn stage_block(&mut self, block: u32, from: &[u8; 256]) -> Result<(), TooMuch> {
        self.blocks.stage_block(block, from)
    }

    fn take_block(&mut self) -> Result<u32, PageNo> {
        self.blocks.take_block()
    }

    fn give_block(&mut self, block: u32) -> Result<(), TooMuch> {
        self.blocks.give_block(block)
    }
}
