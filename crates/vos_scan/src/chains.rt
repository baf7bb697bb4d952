// Chains through rows, each leading back to the row before it of the same number.
ghost use Rattle.std.specs.Prelude.{◌≡◌, ◌+◌, ◌-◌, ◌∷◌, ◌++◌, ◌<◌, ◌≤◌, [], ℕ, length, slice_index, vec_capacity, vec_len, List, IfOk, OnOk};
ghost use Rattle.vos_scan.specs.Chains.{AreChained, IsWalk, akey_place, left};

use crate::places::akey_place;
use base_types::items::Memory;
use base_types::path::Path;
use std::alloc::Global;

/// How many numbers rows have: 1,024 of akeys, and that of punches.
const NUMBERS: usize = 1025;

/// For each number how many rows there are up to the last one of it, and for each row how many there are up to the one before it of its number.
#[derive(Drop)]
pub struct Chains {
    pub lasts: Vec<usize>,
    pub links: Vec<usize>,
    ghost all: { length lasts.items ≡ 1025 },
}

/// A walk back through rows, along those of an akey's number and along punches: so many of the first are left of each.
#[derive(Clone, Copy)]
pub struct Walk {
    pub akey: usize,
    pub punch: usize,
}

impl Walk {
    /// How many of the first rows are left, of which the last is the next one of the walk.
    pub fn left(self) -> usize
        ensures { result ≡ left self }
    {
        if self.akey > self.punch {
            self.akey
        } else {
            self.punch
        }
    }
}

// A zero for each number, for which there is room.
fn fill(lasts: &mut Vec<usize>)
    requires { 1025 ≤ vec_capacity lasts.old }
    ensures len { length lasts.new.items ≡ 1025 }
    ensures zero { (k : ℕ) → k < 1025 → slice_index lasts.new.items k ≡ 0 }
{
    lasts.clear();
    for i in 0..NUMBERS {
        lasts.push(0).unwrap();
    }
}

// Sets each to zero.
fn reset(lasts: &mut [usize])
    ensures len { length lasts.new ≡ length lasts.old }
    ensures zero { (k : ℕ) → slice_index lasts.new k ≡ 0 }
{
    for i in 0..lasts.len() {
        lasts[i] = 0;
    }
}

impl Chains {
    /// Chains through no row.
    ///
    /// # Errors
    ///
    /// For want of memory.
    pub fn new(alloc: Global) -> Result<Chains, Memory>
        ensures { IfOk result (λ chains. AreChained [] chains.lasts.items chains.links.items) }
    {
        let mut lasts = Vec::with_capacity(alloc, NUMBERS)?;
        fill(&mut lasts);
        Ok(Chains {
            lasts,
            links: Vec::new(alloc),
        })
    }

    /// Forgets all rows.
    pub fn forget(&mut self)
        ensures { AreChained [] self.new.lasts.items self.new.links.items }
    {
        reset(&mut self.lasts);
        self.links.clear();
    }

    /// Makes room for one row more.
    ///
    /// # Errors
    ///
    /// For want of memory.
    pub fn reserve(&mut self) -> Result<(), Memory>
        ensures lasts { self.new.lasts.items ≡ self.old.lasts.items }
        ensures links { self.new.links.items ≡ self.old.links.items }
        ensures room { OnOk result (vec_len self.new.links < vec_capacity self.new.links) }
    {
        self.links.reserve(1)?;
        Ok(())
    }

    /// Adds a row of a number behind the others, for which there is room.
    pub fn add(&mut self, place: usize)
        requires place { place ≤ 1024 }
        requires room { vec_len self.old.links < vec_capacity self.old.links }
        ensures { (places : List ℕ) → AreChained places self.old.lasts.items self.old.links.items → AreChained (places ++ place ∷ []) self.new.lasts.items self.new.links.items }
    {
        self.links.push(self.lasts[place]).unwrap();
        self.lasts[place] = self.links.len();
    }

    /// The walk back from the last row, along those of an akey's number and along punches.
    pub fn walk(&self, path: &Path) -> Walk
        ensures { (places : List ℕ) → AreChained places self.now.lasts.items self.now.links.items → IsWalk places (akey_place path.now) (length places) result }
    {
        Walk {
            akey: self.lasts[akey_place(path)],
            punch: self.lasts[NUMBERS - 1],
        }
    }

    /// The walk from the row after its next one on.
    pub fn back(&self, walk: Walk) -> Walk
        requires some { 0 < left walk }
        requires within { left walk ≤ length self.now.links.items }
        ensures { (places : List ℕ) (b at : ℕ) → b < 1024 → AreChained places self.now.lasts.items self.now.links.items → IsWalk places b at walk → at ≤ length places → IsWalk places b (left walk - 1) result }
    {
        if walk.akey > walk.punch {
            Walk {
                akey: self.links[walk.akey - 1],
                punch: walk.punch,
            }
        } else {
            Walk {
                akey: walk.akey,
                punch: self.links[walk.punch - 1],
            }
        }
    }
}
