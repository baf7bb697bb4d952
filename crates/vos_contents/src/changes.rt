// The changes of what a store keeps.
use crate::client_tables::ClientTables;
use crate::contents::Contents;
use crate::keyed::put_in;
use crate::rows::versions_in_form;
use crate::sweeps::remove_snap;
use crate::tables::{create, has_snap, mark, raise, with_conts};
use base_types::entry::{Entry, Settle};
use base_types::epoch::{Epoch, TargetId};
use base_types::id::{AttemptId, ContId};
use base_types::items::Memory;
use base_types::operation::MinorWrite;
use base_types::outcome::FloorWhy;
use base_types::snapshot::Snap;
use daos_model::prunes::Plan;
use std::alloc::Global;
use vos_aggregate::planner::Planner;
use vos_rows::table::VersionTable;
use vos_scan::index::ReadIndex;
use vos_store::refusal::EnlistNo;

impl Contents {
    ghost use Rattle.std.specs.Prelude.{◌≡◌, ◌+◌, ◌*◌, ◌^◌, ◌<◌, ◌≤◌, true, false, None, IfErr, IfOk, IsErr, OnOk, length, map};
    ghost use Rattle.std.specs.List.{list_all};
    ghost use Rattle.base_types.specs.declared.entry.Settle.{Settle};
    ghost use Rattle.daos_model.specs.Changes.{created, discarded, enlisted, frozen, leased, pruned, reopened, settled, thawed};
    ghost use Rattle.daos_model.specs.Durables.{empty_durable, entry_of, is_frozen, is_version_in_form};
    ghost use Rattle.daos_model.specs.Forms.{AreWritesInForm};
    ghost use Rattle.daos_model.specs.Prunes.{is_going};
    ghost use Rattle.daos_model.specs.Versions.{versions_of};
    ghost use Rattle.vos_store.specs.Answers.{IsManyShown, enlists};
    ghost use Rattle.vos_store.specs.Conditions.{IsStep};
    ghost use Rattle.vos_store.specs.Refusals.{enlist_open, enlist_stop, says};
    ghost use Rattle.vos_contents.specs.Clients.{has_room_for};
    ghost use Rattle.vos_contents.specs.Contents.{contents_of};
    ghost use Rattle.vos_contents.specs.Steps.{with_entry};

    /// Empty contents, in the first incarnation.
    pub fn new(alloc: Global) -> Result<Contents, Memory>
        ensures kept { IfOk result (λ c. contents_of c ≡ empty_durable 1) }
    {
        Ok(Contents {
            alloc,
            rows: VersionTable::new(alloc),
            planner: Planner::new(alloc),
            index: ReadIndex::new(alloc)?,
            entries: ClientTables::new(alloc),
            conts: Vec::new(alloc),
            snaps: Vec::with_capacity(alloc, 256)?,
            lease: 0,
            incarnation: 1,
        })
    }

    /// Adds the containers that aren't there.
    ///
    /// # Errors
    ///
    /// `TooMany` exactly where the containers together are more than 256.
    #[tactic(auto, unfolding(daos_model::specs::Changes::enlisted, vos_store::specs::Answers::enlists))]
    pub fn enlist(&mut self, conts: &[ContId]) -> Result<(), EnlistNo>
        ensures answer { says enlist_open result ≡ false → result ≡ enlists conts.now (contents_of self.old) }
        ensures runs { says enlist_stop result ≡ false }
        ensures many { IfErr result IsManyShown }
        ensures kept { OnOk result (contents_of self.new ≡ enlisted conts.now (contents_of self.old)) }
        ensures refused { IsErr result → contents_of self.new ≡ contents_of self.old }
        ensures lease { self.new.lease ≡ self.old.lease }
    {
        let Ok(rows) = with_conts(self.alloc, &self.conts, conts) else {
            return Err(EnlistNo::Memory);
        };
        if rows.len() > 256 {
            return Err(match u32::try_from(rows.len()) {
                Ok(together) => EnlistNo::TooMany { together },
                Err(_) => EnlistNo::Memory,
            });
        }
        self.conts = rows;
        Ok(())
    }

    /// Takes the memory for an entry and its writes, which are to come.
    pub fn ready(&mut self, entry: &Entry, writes: &[MinorWrite]) -> Result<(), Memory>
        requires { AreWritesInForm writes.now }
        ensures same { contents_of self.new ≡ contents_of self.old }
        ensures versions { OnOk result (self.new.rows.coming ≡ versions_of entry.now writes.now) }
        ensures form { OnOk result (list_all is_version_in_form self.new.rows.coming ≡ true) }
        ensures planner { OnOk result (length self.new.rows.items + length self.new.rows.coming ≤ self.new.planner.room) }
        ensures entries { OnOk result (has_room_for entry.now.attempt.client self.new.entries ≡ true) }
        ensures lease { self.new.lease ≡ self.old.lease }
    {
        let rows = versions_in_form(self.alloc, entry, writes)?;
        self.planner.reserve(self.rows.rows().len() + rows.len())?;
        self.rows.expect(rows)?;
        self.entries.reserve(self.alloc, entry.attempt.client)
    }

    /// Adds an entry and its versions, which are those to come.
    pub fn prepare(&mut self, entry: Entry)
        requires absent { entry_of (contents_of self.old) entry.attempt ≡ None }
        requires form { list_all is_version_in_form self.old.rows.coming ≡ true }
        requires planner { length self.old.rows.items + length self.old.rows.coming ≤ self.old.planner.room }
        requires entries { has_room_for entry.attempt.client self.old.entries ≡ true }
        ensures kept { contents_of self.new ≡ with_entry self.old.rows.coming entry (contents_of self.old) }
        ensures lease { self.new.lease ≡ self.old.lease }
    {
        let same = self.rows.put_coming();
        self.index.keep(same);
        self.entries.put(entry);
    }

    // Makes an attempt's versions done and its entry committed.
    fn commit(&mut self, attempt: AttemptId)
        ensures kept { contents_of self.new ≡ settled attempt Settle.Commit (contents_of self.old) }
        ensures lease { self.new.lease ≡ self.old.lease }
    {
        self.rows.settle(attempt);
        self.entries.settle(attempt, Settle::Commit);
    }

    // Removes an attempt's unsettled versions and its entry.
    fn abort(&mut self, attempt: AttemptId)
        ensures kept { contents_of self.new ≡ settled attempt Settle.Abort (contents_of self.old) }
        ensures lease { self.new.lease ≡ self.old.lease }
    {
        self.rows.remove_pending(attempt);
        self.entries.settle(attempt, Settle::Abort);
    }

    // Adds a confirmed member.
    fn confirm(&mut self, attempt: AttemptId, member: TargetId)
        requires { member < 64 }
        ensures kept { contents_of self.new ≡ settled attempt (Settle.Confirm member) (contents_of self.old) }
        ensures lease { self.new.lease ≡ self.old.lease }
    {
        self.entries.settle(attempt, Settle::Confirm(member));
    }

    // Removes an attempt's entry.
    fn forget(&mut self, attempt: AttemptId)
        ensures kept { contents_of self.new ≡ settled attempt Settle.Forget (contents_of self.old) }
        ensures lease { self.new.lease ≡ self.old.lease }
    {
        self.entries.settle(attempt, Settle::Forget);
    }

    /// A step of an attempt.
    pub fn settle(&mut self, attempt: AttemptId, step: Settle)
        requires { IsStep step }
        ensures kept { contents_of self.new ≡ settled attempt step (contents_of self.old) }
        ensures lease { self.new.lease ≡ self.old.lease }
    {
        match step {
            Settle::Commit => self.commit(attempt),
            Settle::Abort => self.abort(attempt),
            Settle::Confirm(member) => self.confirm(attempt, member),
            Settle::Forget => self.forget(attempt),
        }
    }

    /// Sets the lease.
    #[tactic(auto, unfolding(daos_model::specs::Changes::leased))]
    pub fn extend(&mut self, ticks: u64)
        requires { ticks < 2 ^ 56 }
        ensures kept { contents_of self.new ≡ leased ticks (contents_of self.old) }
        ensures lease { self.new.lease ≡ ticks }
    {
        self.lease = ticks;
    }

    /// Freezes a snapshot, for which there is a place, unless it is frozen already.
    pub fn freeze(&mut self, cont: ContId, s: Epoch)
        requires { is_frozen (contents_of self.old) cont s ≡ false → length self.old.snaps.items < 256 }
        ensures kept { contents_of self.new ≡ frozen cont s (contents_of self.old) }
        ensures lease { self.new.lease ≡ self.old.lease }
    {
        if !has_snap(&self.snaps, cont, s) {
            raise(&mut self.conts, cont, s, FloorWhy::Snapshot(s));
            put_in(
                &mut self.snaps,
                Snap {
                    cont,
                    epoch: s,
                    created: false,
                },
            );
        }
    }

    /// Notes that a snapshot is created.
    pub fn create(&mut self, cont: ContId, s: Epoch)
        ensures kept { contents_of self.new ≡ created cont s (contents_of self.old) }
        ensures lease { self.new.lease ≡ self.old.lease }
    {
        create(&mut self.snaps, cont, s);
    }

    /// Drops a snapshot.
    pub fn thaw(&mut self, cont: ContId, s: Epoch)
        ensures kept { contents_of self.new ≡ thawed cont s (contents_of self.old) }
        ensures lease { self.new.lease ≡ self.old.lease }
    {
        remove_snap(&mut self.snaps, cont, s);
    }

    /// Marks the versions that an aggregation of a container up to an epoch removes. Nothing that is kept
    /// changes.
    pub fn plan(&mut self, cont: ContId, upto: Epoch)
        ensures marks { self.new.planner.marks ≡ map (is_going cont upto (contents_of self.old).versions (contents_of self.old).snaps) (contents_of self.old).versions }
        ensures kept { contents_of self.new ≡ contents_of self.old }
        ensures lease { self.new.lease ≡ self.old.lease }
    {
        let plan = Plan {
            versions: self.rows.rows(),
            snaps: &self.snaps,
            cont,
            upto,
        };
        self.planner.mark_going(&plan);
    }

    /// The marks of the versions, one for each.
    pub fn marks(&self) -> &[bool]
        ensures { result.now ≡ self.now.planner.marks }
    {
        self.planner.marks()
    }

    /// Aggregates a container up to an epoch.
    pub fn prune(&mut self, cont: ContId, upto: Epoch, number: u32)
        ensures kept { contents_of self.new ≡ pruned cont upto number (contents_of self.old) }
        ensures lease { self.new.lease ≡ self.old.lease }
    {
        mark(&mut self.conts, cont, upto, number);
        let plan = Plan {
            versions: self.rows.rows(),
            snaps: &self.snaps,
            cont,
            upto,
        };
        self.planner.mark_going(&plan);
        self.index.forget();
        self.rows.sweep(self.planner.marks());
    }

    /// Removes the versions of a container in a range.
    pub fn discard(&mut self, cont: ContId, lo: Epoch, hi: Epoch)
        ensures kept { contents_of self.new ≡ discarded cont lo hi (contents_of self.old) }
        ensures lease { self.new.lease ≡ self.old.lease }
    {
        self.index.forget();
        self.rows.remove_range(cont, lo, hi);
    }

    /// Opens them again.
    #[tactic(auto, unfolding(daos_model::specs::Changes::reopened))]
    pub fn open(&mut self)
        requires { (contents_of self.old).incarnation + 1 < 2 ^ 64 }
        ensures kept { contents_of self.new ≡ reopened (contents_of self.old) }
        ensures lease { self.new.lease ≡ self.old.lease }
    {
        self.incarnation += 1;
    }
}
