// The changes of what a store over lists keeps, with its blocks counted.
ghost use Rattle.std.specs.Prelude.{◌≡◌, ◌≤◌};
ghost use Rattle.vos_contents.specs.Contents.{contents_of};
ghost use Rattle.vos_plain.specs.Costs.{taken_by};

use crate::accounts::{blocks_more, blocks_taken};
use crate::counted::Counted;
use base_types::answer::Answer;
use base_types::entry::{Entry, Settle};
use base_types::epoch::Epoch;
use base_types::id::{AttemptId, ContId};
use base_types::items::Memory;
use base_types::operation::{MinorWrite, Read};
use std::alloc::Global;
use vos_contents::contents::Contents;
use vos_store::refusal::{EnlistNo, FetchNo};

// The blocks that all that is kept takes, which are at most so many.
fn taken_by(kept: &Contents, limit: u32) -> u32
    requires few { taken_by (contents_of kept.now) ≤ limit }
    ensures { result ≡ taken_by (contents_of kept.now) }
{
    blocks_taken(kept.rows.rows(), &kept.entries, limit)
}

impl Counted {
    ghost use Rattle.std.specs.Prelude.{◌+◌, ◌^◌, ◌<◌, true, false, None, IfErr, IfOk, IsErr, OnOk, length};
    ghost use Rattle.std.specs.List.{list_all};
    ghost use Rattle.daos_model.specs.Blocks.{blocks};
    ghost use Rattle.daos_model.specs.Changes.{created, discarded, enlisted, frozen, leased, pruned, reopened, settled, thawed};
    ghost use Rattle.daos_model.specs.Durables.{empty_durable, entry_of, is_frozen, is_version_in_form};
    ghost use Rattle.daos_model.specs.Forms.{AreWritesInForm, is_read_in_form};
    ghost use Rattle.daos_model.specs.Kinds.{is_of_kind};
    ghost use Rattle.daos_model.specs.Versions.{versions_of};
    ghost use Rattle.vos_store.specs.Answers.{IsManyShown, enlists, fetched};
    ghost use Rattle.vos_store.specs.Calls.{going_count};
    ghost use Rattle.vos_store.specs.Conditions.{IsStep};
    ghost use Rattle.vos_store.specs.Refusals.{enlist_open, enlist_stop, fetch_open, fetch_stop, says};
    ghost use Rattle.vos_contents.specs.Clients.{has_room_for};
    ghost use Rattle.vos_contents.specs.Steps.{with_entry};
    ghost use Rattle.vos_plain.specs.Costs.{goes_by, versions_blocks};
    ghost use Rattle.vos_plain.specs.Counted.{free_of, kept_by};

    /// Nothing, with so many blocks.
    pub fn new(alloc: Global, capacity: u32) -> Result<Counted, Memory>
        ensures kept { IfOk result (λ c. kept_by c ≡ empty_durable 1) }
        ensures free { IfOk result (λ c. free_of c ≡ capacity) }
    {
        Ok(Counted {
            kept: Contents::new(alloc)?,
            capacity,
            taken: 0,
        })
    }

    /// Adds the containers that aren't there.
    ///
    /// # Errors
    ///
    /// `TooMany` exactly where the containers together are more than 256.
    pub fn enlist(&mut self, conts: &[ContId]) -> Result<(), EnlistNo>
        ensures answer { says enlist_open result ≡ false → result ≡ enlists conts.now (kept_by self.old) }
        ensures runs { says enlist_stop result ≡ false }
        ensures many { IfErr result IsManyShown }
        ensures kept { OnOk result (kept_by self.new ≡ enlisted conts.now (kept_by self.old)) }
        ensures refused { IsErr result → kept_by self.new ≡ kept_by self.old }
        ensures free { free_of self.new ≡ free_of self.old }
        ensures lease { self.new.kept.lease ≡ self.old.kept.lease }
    {
        self.kept.enlist(conts)
    }

    /// Takes the memory for an entry and its writes, which are to come.
    pub fn ready(&mut self, entry: &Entry, writes: &[MinorWrite]) -> Result<(), Memory>
        requires { AreWritesInForm writes.now }
        ensures same { kept_by self.new ≡ kept_by self.old }
        ensures free { free_of self.new ≡ free_of self.old }
        ensures versions { OnOk result (self.new.kept.rows.coming ≡ versions_of entry.now writes.now) }
        ensures form { OnOk result (list_all is_version_in_form self.new.kept.rows.coming ≡ true) }
        ensures blocks { OnOk result (versions_blocks self.new.kept.rows.coming + 2 ≡ blocks writes.now) }
        ensures planner { OnOk result (length self.new.kept.rows.items + length self.new.kept.rows.coming ≤ self.new.kept.planner.room) }
        ensures entries { OnOk result (has_room_for entry.now.attempt.client self.new.kept.entries ≡ true) }
        ensures lease { self.new.kept.lease ≡ self.old.kept.lease }
    {
        self.kept.ready(entry, writes)
    }

    /// Adds an entry and its versions, which are those to come.
    pub fn prepare(&mut self, entry: Entry)
        requires absent { entry_of (kept_by self.old) entry.attempt ≡ None }
        requires form { list_all is_version_in_form self.old.kept.rows.coming ≡ true }
        requires planner { length self.old.kept.rows.items + length self.old.kept.rows.coming ≤ self.old.kept.planner.room }
        requires entries { has_room_for entry.attempt.client self.old.kept.entries ≡ true }
        requires free { versions_blocks self.old.kept.rows.coming + 2 ≤ free_of self.old }
        ensures kept { kept_by self.new ≡ with_entry self.old.kept.rows.coming entry (kept_by self.old) }
        ensures free { free_of self.new + versions_blocks self.old.kept.rows.coming + 2 ≡ free_of self.old }
        ensures lease { self.new.kept.lease ≡ self.old.kept.lease }
    {
        let more = blocks_more(self.kept.rows.coming(), self.capacity);
        self.kept.prepare(entry);
        self.taken += more;
    }

    // A step by which no version and no entry goes.
    fn settle_in_place(&mut self, attempt: AttemptId, step: Settle)
        requires step { IsStep step }
        requires stays { goes_by step ≡ false }
        ensures kept { kept_by self.new ≡ settled attempt step (kept_by self.old) }
        ensures free { free_of self.new ≡ free_of self.old }
        ensures lease { self.new.kept.lease ≡ self.old.kept.lease }
    {
        self.kept.settle(attempt, step);
    }

    // A step by which some may go.
    fn settle_away(&mut self, attempt: AttemptId, step: Settle)
        requires step { IsStep step }
        ensures kept { kept_by self.new ≡ settled attempt step (kept_by self.old) }
        ensures free { free_of self.old ≤ free_of self.new }
        ensures lease { self.new.kept.lease ≡ self.old.kept.lease }
    {
        self.kept.settle(attempt, step);
        self.taken = taken_by(&self.kept, self.capacity);
    }

    /// A step of an attempt.
    pub fn settle(&mut self, attempt: AttemptId, step: Settle)
        requires { IsStep step }
        ensures kept { kept_by self.new ≡ settled attempt step (kept_by self.old) }
        ensures free { free_of self.old ≤ free_of self.new }
        ensures lease { self.new.kept.lease ≡ self.old.kept.lease }
    {
        match step {
            Settle::Commit | Settle::Confirm(_) => self.settle_in_place(attempt, step),
            Settle::Abort | Settle::Forget => self.settle_away(attempt, step),
        }
    }

    /// Sets the lease.
    pub fn extend(&mut self, ticks: u64)
        requires { ticks < 2 ^ 56 }
        ensures kept { kept_by self.new ≡ leased ticks (kept_by self.old) }
        ensures free { free_of self.new ≡ free_of self.old }
        ensures lease { self.new.kept.lease ≡ ticks }
    {
        self.kept.extend(ticks);
    }

    /// Freezes a snapshot, for which there is a place, unless it is frozen already.
    pub fn freeze(&mut self, cont: ContId, s: Epoch)
        requires { is_frozen (kept_by self.old) cont s ≡ false → length (kept_by self.old).snaps < 256 }
        ensures kept { kept_by self.new ≡ frozen cont s (kept_by self.old) }
        ensures free { free_of self.new ≡ free_of self.old }
        ensures lease { self.new.kept.lease ≡ self.old.kept.lease }
    {
        self.kept.freeze(cont, s);
    }

    /// Notes that a snapshot is created.
    pub fn create(&mut self, cont: ContId, s: Epoch)
        ensures kept { kept_by self.new ≡ created cont s (kept_by self.old) }
        ensures free { free_of self.new ≡ free_of self.old }
        ensures lease { self.new.kept.lease ≡ self.old.kept.lease }
    {
        self.kept.create(cont, s);
    }

    /// Drops a snapshot.
    pub fn thaw(&mut self, cont: ContId, s: Epoch)
        ensures kept { kept_by self.new ≡ thawed cont s (kept_by self.old) }
        ensures free { free_of self.new ≡ free_of self.old }
        ensures lease { self.new.kept.lease ≡ self.old.kept.lease }
    {
        self.kept.thaw(cont, s);
    }

    /// Aggregates a container up to an epoch.
    pub fn prune(&mut self, cont: ContId, upto: Epoch, number: u32)
        ensures kept { kept_by self.new ≡ pruned cont upto number (kept_by self.old) }
        ensures free { free_of self.old + going_count cont upto (kept_by self.old) ≤ free_of self.new }
        ensures lease { self.new.kept.lease ≡ self.old.kept.lease }
    {
        self.kept.prune(cont, upto, number);
        self.taken = taken_by(&self.kept, self.capacity);
    }

    /// Removes the versions of a container in a range.
    pub fn discard(&mut self, cont: ContId, lo: Epoch, hi: Epoch)
        ensures kept { kept_by self.new ≡ discarded cont lo hi (kept_by self.old) }
        ensures free { free_of self.old ≤ free_of self.new }
        ensures lease { self.new.kept.lease ≡ self.old.kept.lease }
    {
        self.kept.discard(cont, lo, hi);
        self.taken = taken_by(&self.kept, self.capacity);
    }

    /// Opens it again.
    pub fn open(&mut self)
        requires { (kept_by self.old).incarnation + 1 < 2 ^ 64 }
        ensures kept { kept_by self.new ≡ reopened (kept_by self.old) }
        ensures free { free_of self.new ≡ free_of self.old }
        ensures lease { self.new.kept.lease ≡ self.old.kept.lease }
    {
        self.kept.open();
    }

    /// The answer of a read below an epoch.
    pub fn fetch(&mut self, read: &Read, below: Epoch) -> Result<Answer, FetchNo>
        ensures answer { says fetch_open result ≡ false → result ≡ fetched read.now below (kept_by self.old) }
        ensures kind { is_read_in_form read.now ≡ true → IfOk result (λ answer. is_of_kind read.now answer ≡ true) }
        ensures runs { says fetch_stop result ≡ false }
        ensures kept { kept_by self.new ≡ kept_by self.old }
        ensures free { free_of self.new ≡ free_of self.old }
        ensures lease { self.new.kept.lease ≡ self.old.kept.lease }
    {
        self.kept.fetch(read, below)
    }

    /// The blocks that are free.
    pub fn free(&self) -> u32
        ensures { result ≡ free_of self.now }
    {
        self.capacity - self.taken
    }
}
