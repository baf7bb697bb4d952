// The blocks of a region: those that are free by a stored map are taken and given back.
ghost use Rattle.std.specs.Prelude.{◌≡◌, ◌⊎◌, ◌↔◌, ℕ, ◌+◌, ◌-◌, ◌*◌, ◌^◌, ◌<◌, ◌≤◌, [], ◌∷◌, ◌++◌, List, length, take, false, true, IfOk, IfErr, OnOk, OnErr, IsErr, IsErrOf, IsTrue, slice_get, slice_index, Some};
ghost use Rattle.base_outside.specs.Images.{Image, all_over, bytes_at, LeavesOnly, Runs, SameButFuse};
ghost use Rattle.pmem_pages.specs.Blocks.{Stops};
ghost use Rattle.pmem_undo.specs.Layout.{IsContent, SameContent, most_ranges, most_bytes, total_bytes};
ghost use Rattle.pmem_undo.specs.Settled.{IsBeforeOrAfter, ComesFrom, OnlyLooks, reads, commit_calls};
ghost use Rattle.pmem_undo.specs.Undo.{IsUndo, IsTooMuch, HasRoom};
ghost use Rattle.pmem_alloc.specs.Sets.{set_to, without, count_below, AreLeast, IsLeast};
ghost use Rattle.pmem_alloc.specs.Map.{MapState, SameBeside, blocks_end, free_blocks, free_of, map_byte, StandsIn};
ghost use Rattle.pmem_alloc.specs.Blocks.{IsBlocks, free_now, free_count, HasRooms, IsOutsideMap, StagesMap, IsOpened, IsHandedBack};

use crate::MAP;
use crate::free_map::FreeMap;
use base_outside::region::{Fusible, Region};
use pmem_pages::refusal::{Stopped, TooMuch};
use pmem_undo::undo_region::UndoRegion;
use std::marker::Model;

/// Fewer blocks are free than are asked for.
#[derive(Clone, Copy, Debug, PartialEq)]
pub struct NoBlock;

/// The undo region that was handed in, which stopped.
#[derive(Drop)]
pub struct BlocksNo<R: Region> {
    pub undo: UndoRegion<R>,
}

/// Blocks of 256 bytes of a region with an undo log. Which of them are free is told by a map in the
/// region, and changed by its commits.
#[derive(Drop)]
pub struct Blocks<R: Region> {
    pub(crate) undo: UndoRegion<R>,
    pub(crate) map: FreeMap,
    pub(crate) lasting: FreeMap,
    pub(crate) last: [u32; 1024],
    pub(crate) many: usize,
}

impl<R: Region> Model for Blocks<R> {
    ghost use Rattle.std.specs.Prelude.{take};
    ghost use Rattle.pmem_alloc.specs.Blocks.{BlocksState, HoldsBlocks};

    ghost Value = { BlocksState R };

    ghost view = { λ b. record {
      undo = b.undo;
      map = b.map;
      lasting = b.lasting;
      last = take b.many b.last;
    } };

    ghost invariant = { λ b. HoldsBlocks (R.extent b.undo.region) R.tells (R.image b.undo.region) b.undo.staged b.undo.stopped
        b.map.bytes b.lasting.bytes b.map.end b.lasting.end b.many };
}

// The first number that is no block's in a region of that size.
fn blocks_end(size: u64) -> u32
    ensures is { result ≡ blocks_end size }
    ensures small { result ≤ 131072 }
{
    (size / 256).min(131072) as u32
}

// Takes the least free block.
pub(crate) fn take_one<R: Region>(
    undo: &mut UndoRegion<R>,
    map: &mut FreeMap,
) -> Result<u32, TooMuch>
    requires { 0 < count_below (free_of map.old) map.old.end }
    ensures least { IfOk result (λ b. IsLeast (free_of map.old) b) }
    ensures taken { IfOk result (λ b. free_of map.new ≡ set_to (free_of map.old) b false) }
    ensures end { map.new.end ≡ map.old.end }
    ensures beside { OnOk result (SameBeside map.old map.new) }
    ensures unmarked { OnErr result (map.new ≡ map.old) }
    ensures kept { OnErr result (undo.new ≡ undo.old) }
    ensures staged { OnOk result (StagesMap 1 undo.old.staged undo.new.staged) }
    ensures stands { OnOk result ((f : Image) → StandsIn map.old.bytes (all_over undo.old.staged f) → StandsIn map.new.bytes (all_over undo.new.staged f)) }
    ensures rest { undo.new ≡ record undo.old { staged = undo.new.staged } }
    ensures refused { IsErr result ↔ IsTooMuch undo.old.staged 1 }
{
    if !undo.has_room(1) {
        return Err(TooMuch);
    }
    let block = map.least();
    let byte = map.take(block);
    stage_byte(undo, block, byte);
    Ok(block)
}

// Stages the byte of the map that has the bit of a block.
fn stage_byte<R: Region>(undo: &mut UndoRegion<R>, block: u32, byte: u8)
    requires room { HasRoom undo.old.staged 1 }
    requires block { block < 131072 }
    ensures { undo.new ≡ record undo.old { staged = undo.old.staged ++ map_byte block byte ∷ [] } }
{
    let _size = undo.size();
    undo.stage(MAP + (block / 8) as u64, &[byte]).unwrap();
}

// Takes so many free blocks, the least first, and notes them.
fn take_many<R: Region>(
    undo: &mut UndoRegion<R>,
    map: &mut FreeMap,
    last: &mut [u32; 1024],
    n: usize,
)
    requires free { n ≤ count_below (free_of map.old) map.old.end }
    requires room { HasRooms undo.old.staged n }
    requires few { n ≤ 1024 }
    ensures least { AreLeast (free_of map.old) (take n last.new) }
    ensures taken { free_of map.new ≡ without (take n last.new) (free_of map.old) }
    ensures end { map.new.end ≡ map.old.end }
    ensures staged { StagesMap n undo.old.staged undo.new.staged }
    ensures stands { (f : Image) → StandsIn map.old.bytes (all_over undo.old.staged f) → StandsIn map.new.bytes (all_over undo.new.staged f) }
    ensures rest { undo.new ≡ record undo.old { staged = undo.new.staged } }
{
    for i in 0..n {
        last[i] = take_one(undo, map).unwrap();
    }
}

impl<R: Region> Blocks<R> {
    /// Opens the blocks of a region by its map. What was staged is dropped.
    ///
    /// # Errors
    ///
    /// It comes only where a count of the region rose in this call, or it had stopped before.
    pub fn open(undo: UndoRegion<R>) -> Result<Blocks<R>, BlocksNo<R>>
        ensures opened { IfOk result (λ b. IsOpened R.extent R.count R.burns undo b) }
        ensures looks { IfOk result (λ b. IsTrue R.tells → OnlyLooks (R.image undo.region) (R.image b.undo.region) (R.may_leave undo.region) (R.may_leave b.undo.region)
            (R.moment undo.region) (R.moment b.undo.region) (R.left_since undo.region) (R.left_since b.undo.region)) }
        ensures holds { IfOk result (λ b. IsBlocks (R.extent b.undo.region) R.tells (R.image b.undo.region) b.undo.staged b.undo.stopped b.map b.lasting) }
        ensures handed_back { IfErr result (λ e. IsHandedBack R.extent R.count R.burns undo e.undo) }
        ensures looks_err { IfErr result (λ e. IsTrue R.tells → OnlyLooks (R.image undo.region) (R.image e.undo.region) (R.may_leave undo.region) (R.may_leave e.undo.region)
            (R.moment undo.region) (R.moment e.undo.region) (R.left_since undo.region) (R.left_since e.undo.region)) }
    {
        let mut undo = undo;
        undo.drop_stage();
        let mut bytes = [0; 16384];
        if undo.read(MAP, &mut bytes).is_err() {
            return Err(BlocksNo { undo });
        }
        let map = FreeMap::new(bytes, blocks_end(undo.size()));
        let lasting = map.copy();
        Ok(Blocks {
            undo,
            map,
            lasting,
            last: [0; 1024],
            many: 0,
        })
    }

    /// Takes the least `n` free blocks, and gives the first of them. They are staged as taken.
    ///
    /// # Errors
    ///
    /// `NoBlock` comes exactly where fewer than `n` blocks are free. Then nothing is taken.
    pub fn take(&mut self, n: u32) -> Result<u32, NoBlock>
        requires some { 1 ≤ n }
        requires room { n ≤ free_count self.old → HasRooms self.old.undo.staged n }
        ensures first { IfOk result (λ b. slice_get self.new.last 0 ≡ Some b) }
        ensures many { OnOk result (length self.new.last ≡ n) }
        ensures least { OnOk result (AreLeast (free_now self.old) self.new.last) }
        ensures taken { OnOk result (free_now self.new ≡ without self.new.last (free_now self.old)) }
        ensures staged { OnOk result (StagesMap n self.old.undo.staged self.new.undo.staged) }
        ensures rest { OnOk result (self.new ≡ record self.old { undo = record self.old.undo { staged = self.new.undo.staged }; map = record self.old.map { bytes = self.new.map.bytes }; last = self.new.last }) }
        ensures kept { OnErr result (self.new ≡ self.old) }
        ensures no_block { IsErr result ↔ (free_count self.old < n) }
        ensures holds { IsBlocks (R.extent self.new.undo.region) R.tells (R.image self.new.undo.region) self.new.undo.staged self.new.undo.stopped self.new.map self.new.lasting }
    {
        if self.map.count() < n {
            return Err(NoBlock);
        }
        take_many(&mut self.undo, &mut self.map, &mut self.last, n as usize);
        self.many = n as usize;
        Ok(self.last[0])
    }

    /// The `i`-th block of the last take that went well, from 0.
    pub fn at(&self, i: u32) -> u32
        requires { i < length self.now.last }
        ensures { slice_get self.now.last i ≡ Some result }
    {
        self.last[i as usize]
    }

    /// The region below.
    pub fn region(&self) -> &R
        ensures { result.now ≡ self.now.undo.region }
    {
        self.undo.region()
    }

    /// How many bytes the region has. Each is a number below 256.
    pub fn size(&self) -> u64
        ensures size { result ≡ R.extent self.now.undo.region }
        ensures bytes { IsTrue R.tells → (i : ℕ) → R.image self.now.undo.region i < 256 }
        ensures undo_holds { IsUndo (R.extent self.now.undo.region) R.tells (R.image self.now.undo.region) (R.may_leave self.now.undo.region) self.now.undo.staged self.now.undo.stopped }
        ensures holds { IsBlocks (R.extent self.now.undo.region) R.tells (R.image self.now.undo.region) self.now.undo.staged self.now.undo.stopped self.now.map self.now.lasting }
    {
        self.undo.size()
    }

    /// Whether it stopped.
    pub fn is_stopped(&self) -> bool
        ensures { result ≡ self.now.undo.stopped }
    {
        self.undo.is_stopped()
    }

    /// How many blocks are free.
    pub fn free(&self) -> u32
        ensures { result ≡ free_count self.now }
    {
        self.map.count()
    }

    /// How many ranges are left to stage, and how many bytes.
    pub fn left(&self) -> (u32, u32)
        ensures ranges { result.0 ≡ most_ranges - length self.now.undo.staged }
        ensures bytes { result.1 ≡ most_bytes - total_bytes self.now.undo.staged }
    {
        self.undo.left()
    }

    /// Gives a block back. It is staged as free.
    pub fn give(&mut self, block: u32)
        requires block { (1264 ≤ block) × (block < blocks_end (R.extent self.old.undo.region)) }
        requires taken { free_now self.old block ≡ false }
        requires room { HasRooms self.old.undo.staged 1 }
        ensures given { free_now self.new ≡ set_to (free_now self.old) block true }
        ensures beside { SameBeside self.old.map self.new.map }
        ensures staged { StagesMap 1 self.old.undo.staged self.new.undo.staged }
        ensures rest { self.new ≡ record self.old { undo = record self.old.undo { staged = self.new.undo.staged }; map = record self.old.map { bytes = self.new.map.bytes } } }
        ensures holds { IsBlocks (R.extent self.new.undo.region) R.tells (R.image self.new.undo.region) self.new.undo.staged self.new.undo.stopped self.new.map self.new.lasting }
    {
        let byte = self.map.give(block);
        stage_byte(&mut self.undo, block, byte);
    }

    /// Stages bytes for the next commit, from a place of the region on. They lie outside the map of
    /// blocks.
    ///
    /// # Errors
    ///
    /// `TooMuch` comes exactly where there would be more than 1,024 ranges, or more than 256,000 bytes
    /// of them together. Then nothing is staged.
    pub fn stage(&mut self, at: u64, bytes: &[u8]) -> Result<(), TooMuch>
        requires content { IsContent (R.extent self.old.undo.region) at (length bytes.now) }
        requires outside { IsOutsideMap at (length bytes.now) }
        ensures staged { OnOk result (self.new ≡ record self.old { undo = record self.old.undo { staged = self.old.undo.staged ++ record { place = at; bytes = bytes.now } ∷ [] } }) }
        ensures kept { OnErr result (self.new ≡ self.old) }
        ensures refused { IsErr result ↔ IsTooMuch self.old.undo.staged (length bytes.now) }
        ensures holds { IsBlocks (R.extent self.new.undo.region) R.tells (R.image self.new.undo.region) self.new.undo.staged self.new.undo.stopped self.new.map self.new.lasting }
    {
        self.undo.stage(at, bytes)
    }

    /// Commits what is staged, takes and gives among it. At `Ok` every later crash leaves it. A crash at
    /// any moment of the call leaves an image that stands for the content before the commit, or for that
    /// after it. Whatever a crash may leave after the call comes from an image that one could leave before
    /// it.
    ///
    /// # Errors
    ///
    /// `Stopped` comes only where a count of the region rose in this call, or it had stopped before.
    /// From then on every commit and every read answers it.
    pub fn commit(&mut self) -> Result<(), Stopped>
        ensures committed { OnOk result (IsTrue R.tells → SameContent (R.image self.new.undo.region) (all_over self.old.undo.staged (R.image self.old.undo.region))) }
        ensures any_moment { IsTrue R.tells → LeavesOnly (R.moment self.old.undo.region) (R.moment self.new.undo.region) (R.left_since self.old.undo.region) (R.left_since self.new.undo.region)
            (IsBeforeOrAfter (R.extent self.old.undo.region) (R.image self.old.undo.region) self.old.undo.staged) }
        ensures left { IsTrue R.tells → self.old.undo.stopped ≡ false → (c : Image) → R.may_leave self.new.undo.region c →
            IsBeforeOrAfter (R.extent self.old.undo.region) (R.image self.old.undo.region) self.old.undo.staged c }
        ensures from { IsTrue R.tells → ComesFrom (R.extent self.old.undo.region) self.old.undo.staged (R.may_leave self.old.undo.region) (R.may_leave self.new.undo.region) }
        ensures calls { OnOk result ((body : List ℕ) × Runs R.did (reads (length self.old.undo.staged) ++ commit_calls body self.old.undo.staged) self.old.undo.region self.new.undo.region) }
        ensures staged { OnOk result (self.new.undo.staged ≡ []) }
        ensures kept { OnErr result (self.new.undo.staged ≡ self.old.undo.staged) }
        ensures extent { R.extent self.new.undo.region ≡ R.extent self.old.undo.region }
        ensures untouched { self.old.undo.stopped ≡ true → self.new ≡ self.old }
        ensures stops { Stops self.old.undo.stopped self.new.undo.stopped (R.count self.old.undo.region) (R.count self.new.undo.region)
            (R.burns self.old.undo.region) (R.burns self.new.undo.region) result }
        ensures rest { self.new ≡ record self.old { undo = self.new.undo; lasting = self.new.lasting } }
        ensures lasting { OnOk result (self.new.lasting ≡ self.old.map) }
        ensures lasting_kept { OnErr result (self.new.lasting ≡ self.old.lasting) }
        ensures holds { IsBlocks (R.extent self.new.undo.region) R.tells (R.image self.new.undo.region) self.new.undo.staged self.new.undo.stopped self.new.map self.new.lasting }
    {
        self.undo.commit()?;
        self.lasting = self.map.copy();
        Ok(())
    }

    /// Reads the bytes from `at` on into the whole of `buf`, with what is staged over them.
    ///
    /// # Errors
    ///
    /// `Stopped` comes only where a count of the region rose in this call, or it had stopped before.
    /// From then on every commit and every read answers it.
    pub fn read(&mut self, at: u64, buf: &mut [u8]) -> Result<(), Stopped>
        requires { IsContent (R.extent self.old.undo.region) at (length buf.old) }
        ensures bytes { OnOk result (IsTrue R.tells → buf.new ≡ bytes_at (all_over self.old.undo.staged (R.image self.old.undo.region)) at (length buf.old)) }
        ensures looks { IsTrue R.tells → OnlyLooks (R.image self.old.undo.region) (R.image self.new.undo.region) (R.may_leave self.old.undo.region) (R.may_leave self.new.undo.region)
            (R.moment self.old.undo.region) (R.moment self.new.undo.region) (R.left_since self.old.undo.region) (R.left_since self.new.undo.region) }
        ensures staged { self.new.undo.staged ≡ self.old.undo.staged }
        ensures extent { R.extent self.new.undo.region ≡ R.extent self.old.undo.region }
        ensures untouched { self.old.undo.stopped ≡ true → self.new ≡ self.old }
        ensures stops { Stops self.old.undo.stopped self.new.undo.stopped (R.count self.old.undo.region) (R.count self.new.undo.region)
            (R.burns self.old.undo.region) (R.burns self.new.undo.region) result }
        ensures rest { self.new ≡ record self.old { undo = self.new.undo } }
        ensures holds { IsBlocks (R.extent self.new.undo.region) R.tells (R.image self.new.undo.region) self.new.undo.staged self.new.undo.stopped self.new.map self.new.lasting }
    {
        self.undo.read(at, buf)
    }

    /// Drops what is staged, and with it the takes and gives since the last commit.
    pub fn drop_stage(&mut self)
        ensures dropped { self.new ≡ record self.old { undo = record self.old.undo { staged = [] }; map = self.old.lasting } }
        ensures holds { IsBlocks (R.extent self.new.undo.region) R.tells (R.image self.new.undo.region) self.new.undo.staged self.new.undo.stopped self.new.map self.new.lasting }
    {
        self.undo.drop_stage();
        self.map = self.lasting.copy();
    }

    /// Takes it apart.
    pub fn into_undo(self) -> UndoRegion<R>
        ensures { result ≡ self.undo }
    {
        let Blocks {
            undo,
            map: _map,
            lasting: _lasting,
            last: _last,
            many: _many,
        } = self;
        undo
    }
}

impl<R: Fusible> Blocks<R> {
    /// Sets the fuse of the region below: its `k`-th write from now on fails. 0 sets none, and takes away
    /// one that is set.
    pub fn set_fuse(&mut self, k: u32)
        ensures fuse { SameButFuse R.extent R.count R.burns R.tells R.image R.may_leave R.moment R.left_since R.broken R.did self.old.undo.region self.new.undo.region }
        ensures rest { self.new ≡ record self.old { undo = record self.old.undo { region = self.new.undo.region } } }
        ensures holds { IsBlocks (R.extent self.new.undo.region) R.tells (R.image self.new.undo.region) self.new.undo.staged self.new.undo.stopped self.new.map self.new.lasting }
    {
        self.undo.set_fuse(k);
    }
}
