// A disk in memory that notes its writes.
ghost use Rattle.std.specs.Prelude.{◌≡◌, ℕ, ◌<◌, ◌+◌, ◌≤◌, [], ◌∷◌, ◌++◌, length, drop, take, replicate, IfOk, OnOk, OnErr};
ghost use Rattle.base_outside.specs.Images.{over, all_over, bytes_at, image_of};
ghost use Rattle.daos_regions.specs.Periods.{ranges_of, kept_from, is_kept, read_now, AllFit};
ghost use Rattle.daos_regions.specs.PeriodLaws.{written, after_end};
ghost use Rattle.daos_regions.specs.declared.keep.Keep.TheVariants.{All};

use crate::keep::Keep;
use crate::piece::{Piece, Stretch};
use base_outside::Memory;
use base_outside::bytes::are_below_256;
use std::alloc::Global;
use std::marker::Model;
use std::mem;

/// A disk in memory: what is read, what the last end of a period kept, the periods that ended, and the
/// writes since.
#[derive(Drop)]
pub struct Disk {
    alloc: Global,
    bytes: Vec<u8>,
    base: Vec<u8>,
    past: Vec<Stretch>,
    unflushed: Vec<Piece>,
}

impl Model for Disk {
    ghost use Rattle.std.specs.Prelude.{length};
    ghost use Rattle.daos_regions.specs.Periods.{DiskState, periods_of, ranges_of, HoldsDisk};

    ghost Value = { DiskState };

    ghost view = { λ d. record {
      size = length d.bytes.items;
      past = periods_of d.past.items;
      unflushed = ranges_of d.unflushed.items;
    } };

    ghost invariant = { λ d. HoldsDisk d.bytes.items d.base.items (periods_of d.past.items) (ranges_of d.unflushed.items) };
}

// Writes some bytes over those from a place on.
fn put(all: &mut [u8], at: usize, bytes: &[u8])
    requires { at + length bytes.now ≤ length all.old }
    ensures { all.new ≡ take at all.old ++ bytes.now ++ drop (at + length bytes.now) all.old }
{
    let end = at + bytes.len();
    all[at..end].copy_from_slice(bytes);
}

// Writes a range over an image.
#[tactic(auto, using(base_outside::specs::ImageLaws::image_written))]
fn lay(all: &mut [u8], at: usize, bytes: &[u8])
    requires { at + length bytes.now ≤ length all.old }
    ensures { image_of all.new ≡ over (record { place = at; bytes = bytes.now }) (image_of all.old) }
{
    put(all, at, bytes);
}

// Whether the write of this number is kept.
fn is_kept(keep: Keep, number: usize) -> bool
    ensures { result ≡ is_kept keep number }
{
    match keep {
        Keep::All => true,
        Keep::None => false,
        Keep::Second => number % 2 == 1,
    }
}

// Makes those writes that are kept.
fn settle(base: &mut [u8], pieces: &[Piece], keep: Keep)
    requires { AllFit (length base.old) (ranges_of pieces.now) }
    ensures { image_of base.new ≡ all_over (kept_from keep 0 (ranges_of pieces.now)) (image_of base.old) }
{
    for (number, piece) in pieces.iter().enumerate() {
        if is_kept(keep, number) {
            lay(base, piece.place as usize, &piece.bytes);
        }
    }
}

// So many zeros.
fn zeros(alloc: Global, size: usize) -> Result<Vec<u8>, Memory>
    ensures { IfOk result (λ v. v.items ≡ replicate size 0) }
{
    Ok(vec![in alloc; 0u8; size]?)
}

impl Disk {
    /// A disk of `size` bytes, all 0.
    pub fn new(alloc: Global, size: u64) -> Result<Disk, Memory>
        ensures { IfOk result (λ d. d ≡ record { size = size; past = []; unflushed = [] }) }
    {
        let size = size as usize;
        Ok(Disk {
            alloc,
            bytes: zeros(alloc, size)?,
            base: zeros(alloc, size)?,
            past: Vec::new(alloc),
            unflushed: Vec::new(alloc),
        })
    }

    /// How many bytes it has. Each is a number below 256.
    pub fn size(&self) -> u64
        ensures size { result ≡ self.now.size }
        ensures bytes { (i : ℕ) → read_now self.now i < 256 }
    {
        are_below_256(&self.bytes);
        self.bytes.len() as u64
    }

    /// Reads the bytes from `at` on into the whole of `buf`.
    pub fn read(&self, at: u64, buf: &mut [u8])
        requires { at + length buf.old ≤ self.now.size }
        ensures { buf.new ≡ bytes_at (read_now self.now) at (length buf.old) }
    {
        let rest = &self.bytes[at as usize..];
        buf.copy_from_slice(&rest[..buf.len()]);
    }

    /// Writes all of the bytes from `at` on, and notes the write. Nothing changes where memory is
    /// wanting.
    pub fn write(&mut self, at: u64, bytes: &[u8]) -> Result<(), Memory>
        requires { at + length bytes.now ≤ self.old.size }
        ensures written { OnOk result (self.new ≡ written self.old (record { place = at; bytes = bytes.now })) }
        ensures kept { OnErr result (self.new ≡ self.old) }
    {
        let piece = Piece {
            place: at,
            bytes: bytes.to_vec(self.alloc)?,
        };
        self.unflushed.push(piece)?;
        lay(&mut self.bytes, at as usize, bytes);
        Ok(())
    }

    /// Ends the period: all of its writes are kept. Nothing changes where memory is wanting.
    pub fn flush(&mut self) -> Result<(), Memory>
        ensures flushed { OnOk result (self.new ≡ after_end self.old All) }
        ensures kept { OnErr result (self.new ≡ self.old) }
    {
        self.past.reserve(1)?;
        settle(&mut self.base, &self.unflushed, Keep::All);
        let writes = mem::replace(&mut self.unflushed, Vec::new(self.alloc));
        self.past
            .push(Stretch {
                writes,
                keep: Keep::All,
            })
            .unwrap();
        Ok(())
    }

    /// Ends the period as a crash does: those of its writes that `keep` says are kept. Nothing changes
    /// where memory is wanting.
    pub fn crash(&mut self, keep: Keep) -> Result<(), Memory>
        ensures crashed { OnOk result (self.new ≡ after_end self.old keep) }
        ensures kept { OnErr result (self.new ≡ self.old) }
    {
        self.past.reserve(1)?;
        settle(&mut self.base, &self.unflushed, keep);
        self.bytes.copy_from_slice(&self.base);
        let writes = mem::replace(&mut self.unflushed, Vec::new(self.alloc));
        self.past.push(Stretch { writes, keep }).unwrap();
        Ok(())
    }
}
