// A region with a fuse.
ghost use Rattle.std.specs.Prelude.{◌≡◌, ◌||◌, ◌==◌, ◌+◌, ◌-◌, ◌≤◌, [], ◌∷◌, length, true, false, OnOk, IsTrue, refl};
ghost use Rattle.base_outside.specs.Causes.{HasEitherCause, one_more};
ghost use Rattle.base_outside.specs.Images.{over, bytes_at, Only, NoMore, Tears, Elapses, StaysBroken, Mends};
ghost use Rattle.base_outside.specs.Images.Call.{Read, Write, Flush};
ghost use Rattle.daos_regions.specs.FusedState.{Fuses};

use base_outside::Failed;
use base_outside::region::{Fusible, Region};
use std::marker::Model;

/// A region with a fuse: the write of a chosen number fails and isn't made, and every call after it
/// fails until the region is opened anew. The calls that the fuse makes fail are counted apart from the
/// faults, which are those of the region below.
#[derive(Drop)]
pub struct Fused<R: Region> {
    region: R,
    left: u32,
    blown: bool,
    burnt: u64,
}

impl<R: Region> Model for Fused<R> {
    ghost use Rattle.std.specs.Prelude.{◌≡◌, false};
    ghost use Rattle.daos_regions.specs.FusedState.{FusedState};

    ghost Value = { FusedState R };

    ghost view = { λ f. record { region = f.region; left = f.left; blown = f.blown; burnt = f.burnt } };

    ghost invariant = { λ f. R.can_burn ≡ false };
}

impl<R: Region> Fused<R> {
    /// A region with no fuse set. Its type can't have a fuse of its own.
    pub fn new(region: R) -> Fused<R>
        requires { R.can_burn ≡ false }
        ensures { result ≡ record { region = region; left = 0; blown = false; burnt = 0 } }
    {
        Fused {
            region,
            left: 0,
            blown: false,
            burnt: 0,
        }
    }

    /// Sets the fuse: the `k`-th write from now on fails. 0 sets none, and takes away one that is set.
    pub fn fuse(&mut self, k: u32)
        ensures { self.new ≡ record self.old { left = k } }
    {
        self.left = k;
    }

    /// The region below.
    pub fn into_region(self) -> R
        ensures { result ≡ self.region }
    {
        let Fused {
            region,
            left: _left,
            blown: _blown,
            burnt: _burnt,
        } = self;
        region
    }
}

// Counts a call that the fuse makes fail.
fn burn(burnt: &mut u64)
    ensures counted { burnt.new ≡ one_more burnt.old }
    ensures later { burnt.old ≤ burnt.new }
{
    *burnt = burnt.saturating_add(1);
}

// Counts a write, and says whether it is the one that fails.
fn is_last(left: &mut u32) -> bool
    ensures last { result ≡ (left.old == 1) }
    ensures left { left.new ≡ left.old - 1 }
{
    let last = *left == 1;
    *left = left.saturating_sub(1);
    last
}

impl<R: Region> Region for Fused<R> {
    ghost extent = { λ f. R.extent f.region };

    ghost count = { λ f. R.count f.region };

    ghost burns = { λ f. f.burnt };

    ghost can_burn = { true };

    ghost tells = { R.tells };

    ghost image = { λ f. R.image f.region };

    ghost may_leave = { λ f c. R.may_leave f.region c };

    ghost moment = { λ f. R.moment f.region };

    ghost left_since = { λ f t c. R.left_since f.region t c };

    ghost broken = { λ f. f.blown || R.broken f.region };

    ghost did = { λ f call g. R.did f.region call g.region };

    ghost counts_now = { λ f t c tells le now. R.counts_now f.region t c tells le now };

    ghost only_now = { λ f c tells left. R.only_now f.region c tells left };

    ghost leaves_some = { λ f tells. R.leaves_some f.region tells };

    ghost unburnt = { λ f no. absurd (Prim.cc no) };

    fn size(&self) -> u64 {
        self.region.size()
    }

    fn read(&mut self, at: u64, buf: &mut [u8]) -> Result<(), Failed>
        requires { at + length buf.old ≤ R.extent self.old.region }
        ensures extent { R.extent self.new.region ≡ R.extent self.old.region }
        ensures cause { HasEitherCause (R.count self.old.region) (R.count self.new.region) self.old.burnt self.new.burnt result }
        ensures bytes { OnOk result (IsTrue R.tells → buf.new ≡ bytes_at (R.image self.old.region) at (length buf.old)) }
        ensures image { IsTrue R.tells → R.image self.new.region ≡ R.image self.old.region }
        ensures crash { IsTrue R.tells → NoMore (λ c. R.may_leave self.old.region c) (λ c. R.may_leave self.new.region c) }
        ensures time { IsTrue R.tells → Elapses (R.moment self.old.region) (R.moment self.new.region)
            (λ t c. R.left_since self.old.region t c) (λ t c. R.left_since self.new.region t c) (λ c. R.may_leave self.new.region c) }
        ensures broken { IsTrue R.tells → StaysBroken (self.old.blown || R.broken self.old.region) (self.new.blown || R.broken self.new.region) result }
        ensures call { OnOk result (R.did self.old.region Read self.new.region) }
        ensures fuse { Fuses self.old.blown self.old self.new result }
        ensures left { self.new.left ≡ self.old.left }
    {
        if self.blown {
            burn(&mut self.burnt);
            return Err(Failed);
        }
        self.region.read(at, buf)
    }

    fn write(&mut self, at: u64, bytes: &[u8]) -> Result<(), Failed>
        requires { at + length bytes.now ≤ R.extent self.old.region }
        ensures extent { R.extent self.new.region ≡ R.extent self.old.region }
        ensures cause { HasEitherCause (R.count self.old.region) (R.count self.new.region) self.old.burnt self.new.burnt result }
        ensures image { OnOk result (IsTrue R.tells → R.image self.new.region ≡
            over (record { place = at; bytes = bytes.now }) (R.image self.old.region)) }
        ensures crash { IsTrue R.tells → Tears (record { place = at; bytes = bytes.now } ∷ [])
            (λ c. R.may_leave self.old.region c) (λ c. R.may_leave self.new.region c) }
        ensures time { IsTrue R.tells → Elapses (R.moment self.old.region) (R.moment self.new.region)
            (λ t c. R.left_since self.old.region t c) (λ t c. R.left_since self.new.region t c) (λ c. R.may_leave self.new.region c) }
        ensures broken { IsTrue R.tells → StaysBroken (self.old.blown || R.broken self.old.region) (self.new.blown || R.broken self.new.region) result }
        ensures call { OnOk result (R.did self.old.region (Write (record { place = at; bytes = bytes.now })) self.new.region) }
        ensures fuse { Fuses (self.old.blown || self.old.left == 1) self.old self.new result }
        ensures left { self.old.blown ≡ false → self.new.left ≡ self.old.left - 1 }
    {
        if self.blown {
            burn(&mut self.burnt);
            return Err(Failed);
        }
        if is_last(&mut self.left) {
            self.blown = true;
            burn(&mut self.burnt);
            return Err(Failed);
        }
        self.region.write(at, bytes)
    }

    fn flush(&mut self) -> Result<(), Failed>
        ensures extent { R.extent self.new.region ≡ R.extent self.old.region }
        ensures cause { HasEitherCause (R.count self.old.region) (R.count self.new.region) self.old.burnt self.new.burnt result }
        ensures lasting { OnOk result (IsTrue R.tells → Only (R.image self.new.region) (λ c. R.may_leave self.new.region c)) }
        ensures image { IsTrue R.tells → R.image self.new.region ≡ R.image self.old.region }
        ensures crash { IsTrue R.tells → NoMore (λ c. R.may_leave self.old.region c) (λ c. R.may_leave self.new.region c) }
        ensures time { IsTrue R.tells → Elapses (R.moment self.old.region) (R.moment self.new.region)
            (λ t c. R.left_since self.old.region t c) (λ t c. R.left_since self.new.region t c) (λ c. R.may_leave self.new.region c) }
        ensures broken { IsTrue R.tells → StaysBroken (self.old.blown || R.broken self.old.region) (self.new.blown || R.broken self.new.region) result }
        ensures call { OnOk result (R.did self.old.region Flush self.new.region) }
        ensures fuse { Fuses self.old.blown self.old self.new result }
        ensures left { self.new.left ≡ self.old.left }
    {
        if self.blown {
            burn(&mut self.burnt);
            return Err(Failed);
        }
        self.region.flush()
    }

    fn reopen(&mut self) -> Result<(), Failed>
        ensures extent { R.extent self.new.region ≡ R.extent self.old.region }
        ensures cause { HasEitherCause (R.count self.old.region) (R.count self.new.region) self.old.burnt self.new.burnt result }
        ensures lasting { OnOk result (IsTrue R.tells → Only (R.image self.new.region) (λ c. R.may_leave self.new.region c)) }
        ensures image { OnOk result (IsTrue R.tells → R.may_leave self.old.region (R.image self.new.region)) }
        ensures crash { IsTrue R.tells → NoMore (λ c. R.may_leave self.old.region c) (λ c. R.may_leave self.new.region c) }
        ensures time { IsTrue R.tells → Elapses (R.moment self.old.region) (R.moment self.new.region)
            (λ t c. R.left_since self.old.region t c) (λ t c. R.left_since self.new.region t c) (λ c. R.may_leave self.new.region c) }
        ensures broken { IsTrue R.tells → Mends (self.new.blown || R.broken self.new.region) result }
        ensures fuse { self.new.burnt ≡ self.old.burnt }
        ensures left { self.new.left ≡ self.old.left }
    {
        self.region.reopen()?;
        self.blown = false;
        Ok(())
    }

    fn burnt(&self) -> u64 {
        self.burnt
    }

    fn faults(&self) -> u64 {
        self.region.faults()
    }
}

impl<R: Region> Fusible for Fused<R> {
    fn set_fuse(&mut self, k: u32)
        ensures fuse { self.new ≡ record self.old { left = k } }
    {
        self.fuse(k);
    }

    ghost can_be_fused = { refl };
}
