// A region in memory whose calls fail by their numbers.
ghost use Rattle.std.specs.Prelude.{◌≡◌, ◌⊎◌, ◌↔◌, ℕ, ◌<◌, ◌+◌, ◌≤◌, [], ◌∷◌, length, Bool, true, false, Contains, IfOk, OnOk, OnErr, IsOk, IsErr, IsTrue, if◌then◌else◌, refl};
ghost use Rattle.std.proofs.Common.{inr};
ghost use Rattle.base_outside.specs.Causes.{HasEitherCause, one_more};
ghost use Rattle.base_outside.specs.Images.{over, bytes_at, Only, NoMore, Tears};
ghost use Rattle.base_outside.specs.ImageLaws.{torn_none};
ghost use Rattle.daos_regions.specs.Periods.{kept, read_now, MayLeave, LeftSince};
ghost use Rattle.daos_regions.specs.PeriodLaws.{written, after_end, left_now};
ghost use Rattle.daos_regions.specs.MemLaws.{Does, Goes, CountsCall, CountsOpening};
ghost use Rattle.daos_regions.specs.declared.keep.Keep.TheVariants.{All};

use crate::disk::Disk;
use crate::keep::Keep;
use base_outside::failing_calls::FailingCalls;
use base_outside::region::Region;
use base_outside::{Failed, Memory};
use std::alloc::Global;
use std::marker::Model;

/// A region in memory. The calls whose numbers stand in its list fail, counted from 1 over all calls
/// that can fail; after one that failed every call fails until it is opened anew. Opening it anew keeps
/// those of the unflushed writes that it was made to keep. It notes its writes, and a call that finds
/// no memory for that fails too.
#[derive(Drop)]
pub struct MemRegion {
    disk: Disk,
    plan: FailingCalls,
    broken: bool,
    keep: Keep,
}

impl Model for MemRegion {
    ghost use Rattle.daos_regions.specs.MemState.{MemState};

    ghost Value = { MemState };

    ghost view = { λ m. record { disk = m.disk; keep = m.keep; broken = m.broken; calls = m.plan } };
}

impl MemRegion {
    /// A region of `size` bytes, all 0.
    pub fn new(alloc: Global, size: u64, fails: &[u32], keep: Keep) -> Result<MemRegion, Memory>
        ensures { IfOk result (λ m. m ≡ record {
          disk = record { size = size; past = []; unflushed = [] };
          keep = keep;
          broken = false;
          calls = record { fails = fails.now; calls = 0; faults = 0 };
        }) }
    {
        Ok(MemRegion {
            disk: Disk::new(alloc, size)?,
            plan: FailingCalls::new(alloc, fails)?,
            broken: false,
            keep,
        })
    }
}

// Counts a call, and says whether it fails: by its number, or since one has failed before.
fn call_fails(plan: &mut FailingCalls, broken: &mut bool) -> bool
    ensures fails { IsTrue result ↔ ((broken.old ≡ true) ⊎ Contains plan.old.fails plan.new.calls) }
    ensures broken { broken.new ≡ result }
    ensures list { plan.new.fails ≡ plan.old.fails }
    ensures calls { plan.new.calls ≡ one_more plan.old.calls }
    ensures later { plan.old.faults ≤ plan.new.faults }
    ensures faults { plan.new.faults ≡ (if result then one_more plan.old.faults else plan.old.faults) }
{
    let planned = plan.next_call_fails();
    if planned {
        *broken = true;
        return true;
    }
    if *broken {
        plan.add_fault();
        return true;
    }
    false
}

// Reads from a disk, if the call doesn't fail.
fn read_disk(
    disk: &Disk,
    plan: &mut FailingCalls,
    broken: &mut bool,
    at: u64,
    buf: &mut [u8],
) -> Result<(), Failed>
    requires { at + length buf.old ≤ disk.now.size }
    ensures bytes { OnOk result (buf.new ≡ bytes_at (read_now disk.now) at (length buf.old)) }
    ensures counts { CountsCall broken.old broken.new plan.old plan.new result }
{
    if call_fails(plan, broken) {
        return Err(Failed);
    }
    disk.read(at, buf);
    Ok(())
}

// Writes to a disk, if the call doesn't fail and there is memory to note it.
fn write_disk(
    disk: &mut Disk,
    plan: &mut FailingCalls,
    broken: &mut bool,
    at: u64,
    bytes: &[u8],
) -> Result<(), Failed>
    requires { at + length bytes.now ≤ disk.old.size }
    ensures written { OnOk result (disk.new ≡ written disk.old (record { place = at; bytes = bytes.now })) }
    ensures kept { OnErr result (disk.new ≡ disk.old) }
    ensures counts { CountsCall broken.old broken.new plan.old plan.new result }
{
    if call_fails(plan, broken) {
        return Err(Failed);
    }
    if disk.write(at, bytes).is_err() {
        plan.add_fault();
        *broken = true;
        return Err(Failed);
    }
    Ok(())
}

// Flushes a disk, if the call doesn't fail and there is memory to note it.
fn flush_disk(disk: &mut Disk, plan: &mut FailingCalls, broken: &mut bool) -> Result<(), Failed>
    ensures flushed { OnOk result (disk.new ≡ after_end disk.old All) }
    ensures kept { OnErr result (disk.new ≡ disk.old) }
    ensures counts { CountsCall broken.old broken.new plan.old plan.new result }
{
    if call_fails(plan, broken) {
        return Err(Failed);
    }
    if disk.flush().is_err() {
        plan.add_fault();
        *broken = true;
        return Err(Failed);
    }
    Ok(())
}

// Opens a disk anew, if the call isn't planned to fail and there is memory to note it.
fn open_disk(
    disk: &mut Disk,
    plan: &mut FailingCalls,
    broken: &mut bool,
    keep: Keep,
) -> Result<(), Failed>
    ensures opened { OnOk result (disk.new ≡ after_end disk.old keep) }
    ensures kept { OnErr result (disk.new ≡ disk.old) }
    ensures counts { CountsOpening broken.new plan.old plan.new result }
{
    *broken = true;
    if plan.next_call_fails() {
        return Err(Failed);
    }
    if disk.crash(keep).is_err() {
        plan.add_fault();
        return Err(Failed);
    }
    *broken = false;
    Ok(())
}

impl Region for MemRegion {
    ghost extent = { λ m. m.disk.size };

    ghost count = { λ m. m.calls.faults };

    ghost burns = { λ _. 0 };

    ghost can_burn = { false };

    ghost tells = { true };

    ghost image = { λ m. read_now m.disk };

    ghost may_leave = { λ m c. MayLeave m.disk c };

    ghost moment = { λ m. length m.disk.past };

    ghost left_since = { λ m t c. LeftSince m.disk t c };

    ghost broken = { λ m. m.broken };

    ghost did = { λ m call n. Does m.disk call n.disk };

    ghost counts_now = { λ _ _ _ _ _ now. inr now };

    ghost only_now = { λ m c _ left. left_now m.disk c left };

    ghost leaves_some = { λ m _. (kept m.disk, torn_none m.disk.unflushed (kept m.disk)) };

    ghost unburnt = { λ _ _. refl };

    fn size(&self) -> u64
        ensures size { result ≡ self.now.disk.size }
        ensures bytes { (i : ℕ) → read_now self.now.disk i < 256 }
    {
        self.disk.size()
    }

    fn read(&mut self, at: u64, buf: &mut [u8]) -> Result<(), Failed>
        requires { at + length buf.old ≤ self.old.disk.size }
        ensures extent { self.new.disk.size ≡ self.old.disk.size }
        ensures cause { HasEitherCause self.old.calls.faults self.new.calls.faults 0 0 result }
        ensures bytes { OnOk result (buf.new ≡ bytes_at (read_now self.old.disk) at (length buf.old)) }
        ensures kept { self.new.disk ≡ self.old.disk }
        ensures crash { NoMore (MayLeave self.old.disk) (MayLeave self.new.disk) }
        ensures goes { Goes self.old.disk self.new.disk }
        ensures keep { self.new.keep ≡ self.old.keep }
        ensures counts { CountsCall self.old.broken self.new.broken self.old.calls self.new.calls result }
    {
        read_disk(&self.disk, &mut self.plan, &mut self.broken, at, buf)
    }

    fn write(&mut self, at: u64, bytes: &[u8]) -> Result<(), Failed>
        requires { at + length bytes.now ≤ self.old.disk.size }
        ensures extent { self.new.disk.size ≡ self.old.disk.size }
        ensures cause { HasEitherCause self.old.calls.faults self.new.calls.faults 0 0 result }
        ensures written { OnOk result (self.new.disk ≡ written self.old.disk (record { place = at; bytes = bytes.now })) }
        ensures kept { OnErr result (self.new.disk ≡ self.old.disk) }
        ensures image { OnOk result (read_now self.new.disk ≡
            over (record { place = at; bytes = bytes.now }) (read_now self.old.disk)) }
        ensures crash { Tears (record { place = at; bytes = bytes.now } ∷ []) (MayLeave self.old.disk) (MayLeave self.new.disk) }
        ensures goes { Goes self.old.disk self.new.disk }
        ensures keep { self.new.keep ≡ self.old.keep }
        ensures counts { CountsCall self.old.broken self.new.broken self.old.calls self.new.calls result }
    {
        write_disk(&mut self.disk, &mut self.plan, &mut self.broken, at, bytes)
    }

    fn flush(&mut self) -> Result<(), Failed>
        ensures extent { self.new.disk.size ≡ self.old.disk.size }
        ensures cause { HasEitherCause self.old.calls.faults self.new.calls.faults 0 0 result }
        ensures flushed { OnOk result (self.new.disk ≡ after_end self.old.disk All) }
        ensures kept { OnErr result (self.new.disk ≡ self.old.disk) }
        ensures lasting { OnOk result (Only (read_now self.new.disk) (MayLeave self.new.disk)) }
        ensures image { read_now self.new.disk ≡ read_now self.old.disk }
        ensures crash { NoMore (MayLeave self.old.disk) (MayLeave self.new.disk) }
        ensures goes { Goes self.old.disk self.new.disk }
        ensures keep { self.new.keep ≡ self.old.keep }
        ensures counts { CountsCall self.old.broken self.new.broken self.old.calls self.new.calls result }
    {
        flush_disk(&mut self.disk, &mut self.plan, &mut self.broken)
    }

    fn reopen(&mut self) -> Result<(), Failed>
        ensures extent { self.new.disk.size ≡ self.old.disk.size }
        ensures cause { HasEitherCause self.old.calls.faults self.new.calls.faults 0 0 result }
        ensures opened { OnOk result (self.new.disk ≡ after_end self.old.disk self.old.keep) }
        ensures kept { OnErr result (self.new.disk ≡ self.old.disk) }
        ensures lasting { OnOk result (Only (read_now self.new.disk) (MayLeave self.new.disk)) }
        ensures image { OnOk result (MayLeave self.old.disk (read_now self.new.disk)) }
        ensures crash { NoMore (MayLeave self.old.disk) (MayLeave self.new.disk) }
        ensures goes { Goes self.old.disk self.new.disk }
        ensures keep { self.new.keep ≡ self.old.keep }
        ensures counts { CountsOpening self.new.broken self.old.calls self.new.calls result }
    {
        open_disk(&mut self.disk, &mut self.plan, &mut self.broken, self.keep)
    }

    fn burnt(&self) -> u64 {
        0
    }

    fn faults(&self) -> u64 {
        self.plan.faults()
    }
}
