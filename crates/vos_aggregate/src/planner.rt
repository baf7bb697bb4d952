// Which versions a prune removes, planned in memory that is there already.
ghost use Rattle.std.specs.Prelude.{◌≡◌, ℕ, ◌<◌, ◌≤◌, [], false, length, map, slice_index, vec_capacity, vec_len, OnOk};
ghost use Rattle.std.specs.List.{slice_index_or};
ghost use Rattle.daos_model.specs.Prunes.{is_going};

use crate::marking::mark_all;
use crate::plannable::is_plannable;
use base_types::items::Memory;
use daos_model::prunes::Plan;
use std::alloc::Global;
use std::marker::Model;

/// Marks of the versions that a prune removes, and memory for plans of so many versions.
#[derive(Drop)]
pub struct Planner {
    marks: Vec<bool>,
    heads: Vec<usize>,
    nexts: Vec<usize>,
}

impl Model for Planner {
    ghost use Rattle.std.specs.Prelude.{min, vec_capacity};
    ghost use Rattle.vos_aggregate.specs.Planners.{Planned};

    ghost Value = { Planned };

    ghost view = { λ p. record { marks = p.marks.items; room = min (vec_capacity p.marks) (min (vec_capacity p.heads) (vec_capacity p.nexts)) } };
}

// So many times that number, for which there is room.
fn fill(places: &mut Vec<usize>, count: usize)
    requires { count ≤ vec_capacity places.old }
    ensures len { vec_len places.new ≡ count }
    ensures items { (k : ℕ) → k < count → slice_index places.new.items k ≡ count }
    ensures capacity { vec_capacity places.old ≤ vec_capacity places.new }
{
    places.clear();
    for i in 0..count {
        places.push(count).unwrap();
    }
}

// So many marks, for which there is room, of which none is set.
fn unmark_all(marks: &mut Vec<bool>, count: usize)
    requires { count ≤ vec_capacity marks.old }
    ensures len { vec_len marks.new ≡ count }
    ensures items { (k : ℕ) → slice_index_or marks.new.items k false ≡ false }
    ensures capacity { vec_capacity marks.old ≤ vec_capacity marks.new }
{
    marks.clear();
    for i in 0..count {
        marks.push(false).unwrap();
    }
}

// Marks the versions that a plan removes, each by all others.
fn mark_slowly(marks: &mut Vec<bool>, plan: &Plan)
    requires { length plan.now.versions.now ≤ vec_capacity marks.old }
    ensures items { marks.new.items ≡ map (is_going plan.now.cont plan.now.upto plan.now.versions.now plan.now.snaps.now) plan.now.versions.now }
    ensures capacity { vec_capacity marks.old ≤ vec_capacity marks.new }
{
    marks.clear();
    for version in plan.versions {
        marks.push(plan.removes(version)).unwrap();
    }
}

impl Planner {
    /// No marks, and memory for none.
    pub fn new(alloc: Global) -> Planner
        ensures { result.marks ≡ [] }
    {
        Planner {
            marks: Vec::new(alloc),
            heads: Vec::new(alloc),
            nexts: Vec::new(alloc),
        }
    }

    /// Takes the memory for plans of so many versions.
    ///
    /// # Errors
    ///
    /// For want of memory; what it had it keeps.
    pub fn reserve(&mut self, count: usize) -> Result<(), Memory>
        ensures room { OnOk result (count ≤ self.new.room) }
        ensures kept { self.old.room ≤ self.new.room }
    {
        self.marks.clear();
        self.heads.clear();
        self.nexts.clear();
        self.marks.reserve(count)?;
        self.heads.reserve(count)?;
        self.nexts.reserve(count)?;
        Ok(())
    }

    /// Marks the versions that a plan removes: by chains of those that touch the same cells. Where a
    /// version doesn't come after the one before it in the order, where a punch's path doesn't end at its
    /// level, or where an extent has more than 1,024 records, it holds each version against all others
    /// instead, which takes longer.
    pub fn mark_going(&mut self, plan: &Plan)
        requires { length plan.now.versions.now ≤ self.old.room }
        ensures marks { self.new.marks ≡ map (is_going plan.now.cont plan.now.upto plan.now.versions.now plan.now.snaps.now) plan.now.versions.now }
        ensures room { self.old.room ≤ self.new.room }
    {
        if !is_plannable(plan.versions) {
            mark_slowly(&mut self.marks, plan);
            return;
        }
        let count = plan.versions.len();
        unmark_all(&mut self.marks, count);
        fill(&mut self.heads, count);
        fill(&mut self.nexts, count);
        mark_all(&mut self.marks, &mut self.heads, &mut self.nexts, plan);
    }

    /// The marks.
    pub fn marks(&self) -> &[bool]
        ensures { result.now ≡ self.now.marks }
    {
        &self.marks
    }
}
