// A region in memory that never fails.
ghost use Rattle.std.specs.Prelude.{◌≡◌, ℕ, ◌<◌, ◌+◌, ◌≤◌, ◌++◌, [], ◌∷◌, length, take, drop, slice_range, replicate, IfOk, IsOk, true, false, refl};
ghost use Rattle.base_outside.specs.Causes.{HasEitherCause};
ghost use Rattle.base_outside.specs.Images.{over, bytes_at, image_of, Tears};

use crate::bytes::are_below_256;
use crate::region::Region;
use crate::{Failed, Memory};
use std::alloc::Global;
use std::marker::Model;

/// A region in memory that never fails. Clauses see it as the list of its bytes.
#[derive(Drop)]
pub struct SureRegion {
    bytes: Vec<u8>,
}

impl Model for SureRegion {
    ghost use Rattle.std.specs.Prelude.{List, ℕ};

    ghost Value = { List ℕ };

    ghost view = { λ r. r.bytes.items };
}

impl SureRegion {
    /// A region of `size` bytes, all 0.
    pub fn new(alloc: Global, size: u64) -> Result<SureRegion, Memory>
        ensures { IfOk result (λ r. r ≡ replicate size 0) }
    {
        Ok(SureRegion {
            bytes: vec![in alloc; 0u8; size as usize]?,
        })
    }
}

// Writes some bytes over those from a place on.
fn put(all: &mut [u8], at: usize, bytes: &[u8])
    requires { at + length bytes.now ≤ length all.old }
    ensures { all.new ≡ take at all.old ++ bytes.now ++ drop (at + length bytes.now) all.old }
{
    let end = at + bytes.len();
    all[at..end].copy_from_slice(bytes);
}

impl Region for SureRegion {
    ghost extent = { λ r. length r };

    ghost count = { λ _. 0 };

    ghost burns = { λ _. 0 };

    ghost can_burn = { false };

    ghost tells = { true };

    ghost image = { λ r. image_of r };

    ghost may_leave = { λ r c. c ≡ image_of r };

    ghost moment = { λ _. 0 };

    ghost left_since = { λ r _ c. c ≡ image_of r };

    ghost broken = { λ _. false };

    ghost did = { λ _ _ _. Unit {0} };

    ghost counts_now = { λ _ _ _ _ _ now. now };

    ghost only_now = { λ _ _ _ left. left };

    ghost leaves_some = { λ r _. (image_of r, refl) };

    ghost unburnt = { λ _ _. refl };

    fn size(&self) -> u64
        ensures size { result ≡ length self.now }
        ensures bytes { (i : ℕ) → image_of self.now i < 256 }
    {
        are_below_256(&self.bytes);
        self.bytes.len() as u64
    }

    fn read(&mut self, at: u64, buf: &mut [u8]) -> Result<(), Failed>
        requires { at + length buf.old ≤ length self.old }
        ensures extent { length self.new ≡ length self.old }
        ensures cause { HasEitherCause 0 0 0 0 result }
        ensures sure { IsOk result }
        ensures bytes { buf.new ≡ slice_range self.old at (at + length buf.old) }
        ensures told { buf.new ≡ bytes_at (image_of self.old) at (length buf.old) }
        ensures kept { self.new ≡ self.old }
    {
        let rest = &self.bytes[at as usize..];
        buf.copy_from_slice(&rest[..buf.len()]);
        Ok(())
    }

    fn write(&mut self, at: u64, bytes: &[u8]) -> Result<(), Failed>
        requires { at + length bytes.now ≤ length self.old }
        ensures extent { length self.new ≡ length self.old }
        ensures cause { HasEitherCause 0 0 0 0 result }
        ensures sure { IsOk result }
        ensures bytes { self.new ≡ take at self.old ++ bytes.now ++ drop (at + length bytes.now) self.old }
        ensures told { image_of self.new ≡ over (record { place = at; bytes = bytes.now }) (image_of self.old) }
        ensures crash { Tears (record { place = at; bytes = bytes.now } ∷ []) (λ c. c ≡ image_of self.old) (λ c. c ≡ image_of self.new) }
    {
        put(&mut self.bytes, at as usize, bytes);
        Ok(())
    }

    fn flush(&mut self) -> Result<(), Failed>
        ensures extent { length self.new ≡ length self.old }
        ensures cause { HasEitherCause 0 0 0 0 result }
        ensures sure { IsOk result }
        ensures kept { self.new ≡ self.old }
    {
        Ok(())
    }

    fn reopen(&mut self) -> Result<(), Failed>
        ensures extent { length self.new ≡ length self.old }
        ensures cause { HasEitherCause 0 0 0 0 result }
        ensures sure { IsOk result }
        ensures kept { self.new ≡ self.old }
    {
        Ok(())
    }

    fn burnt(&self) -> u64 {
        0
    }

    fn faults(&self) -> u64 {
        0
    }
}
