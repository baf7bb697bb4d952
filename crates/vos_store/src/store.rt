// The trait of a target's store.
ghost use Rattle.std.specs.Prelude.{◌≡◌, ◌≤◌, ◌+◌, ◌^◌, ◌<◌, true, false, Option, Some, Ok, IfErr, IfOk, OnOk, IsSome, IfSome, MatchResult, is_some};
ghost use Rattle.std.specs.Option.{ForSome};
ghost use Rattle.base_types.specs.Epochs.{restart_floor};
ghost use Rattle.base_types.specs.Operations.{read_path};
ghost use Rattle.base_types.specs.declared.outcome.FloorWhy.{FloorWhy};
ghost use Rattle.daos_model.specs.declared.durable.Durable.{Durable};
ghost use Rattle.daos_model.specs.Blocks.{blocks};
ghost use Rattle.daos_model.specs.Changes.{created, discarded, enlisted, frozen, leased, prepared, pruned, settled, thawed};
ghost use Rattle.daos_model.specs.Durables.{IsInForm, is_enlisted, is_frozen, row_of};
ghost use Rattle.daos_model.specs.Forms.{is_path_in_form, is_read_in_form};
ghost use Rattle.daos_model.specs.Kinds.{is_of_kind};
ghost use Rattle.vos_store.specs.Answers.{IsFloorShown, IsManyShown, PrepareWhy, discards, enlisted_in, enlists, fetched, floor_of, freezes, later_write, objects_in, open_below};
ghost use Rattle.vos_store.specs.Calls.{Answers, CutDiscard, CutPrune, Finds, IfRunning, Looks, Makes, MakesPartly, Opens, SetsFuse, State, Turns, UsesFuse, going_count};
ghost use Rattle.vos_store.specs.Conditions.{CanFreeze, CanPrepare, CanPrune, CanSettle, IsPreparable, IsStep};
ghost use Rattle.vos_store.specs.Refusals.{always_stop, discard_open, discard_stop, enlist_open, enlist_stop, fetch_open, fetch_stop, freeze_stop, later_open, later_stop, prepare_stop, reopen_foreign, says};

use crate::listed::{ContIds, ObjIds};
use crate::refusal::{
    DiscardNo, EnlistNo, FetchNo, FreezeNo, LaterNo, PrepareNo, ReopenNo, Stopped,
};
use base_types::answer::Answer;
use base_types::entry::{Entries, Entry, Settle};
use base_types::epoch::Epoch;
use base_types::id::{AttemptId, ContId};
use base_types::items::Memory;
use base_types::operation::{MinorWrite, Read};
use base_types::outcome::FloorWhy;
use base_types::path::Path;
use base_types::shown::Shown;
use base_types::snapshot::Snaps;

/// What a target keeps: versions, entries, containers with their floors and aggregated-to epochs,
/// snapshots, a lease and an incarnation.
///
/// A call answers `Stopped` where the store is stopped, and else only where `faults` or `burnt` rose
/// in it. The store is then stopped, until `reopen` answers Ok; a new one isn't. A store that the
/// outside can't fail, and that has no fuse, is never stopped by a call. Every other refusal
/// yields to `Stopped`, and a call that may answer want of memory may do so in place of any other
/// answer. After a refusal other than `Stopped` the store is as before.
///
/// Each change is made whole or not at all; a prune and a discard may leave some of their versions
/// where they are cut. Which of the two was made where a change was cut may be open until `reopen`.
///
/// A store over a region that doesn't tell its bytes tells nothing of what it keeps; then the clauses
/// on that say nothing.
pub trait Store {
    /// What it keeps, where it tells it. While it is stopped this says nothing.
    ghost durable: { Self → Option Durable };

    /// What the next opening may find.
    ghost may: { Self → Durable → Type 0 };

    /// What it says of itself: whether it is stopped, its counts, whether the outside may fail it, its
    /// fuse, its free blocks, the number of targets that it was made for, and the floor of its last
    /// opening.
    ghost state: { Self → State };

    /// Adds the containers that aren't there.
    ///
    /// # Errors
    ///
    /// `TooMany` exactly where the containers together are more than 256, and shows their number,
    /// which is more than 256 also where nothing is told.
    fn enlist(&mut self, conts: &[ContId]) -> Result<(), EnlistNo>
        ensures call { Turns 0 enlist_stop result (state self.old) (state self.new) }
        ensures free { (state self.new).free ≡ (state self.old).free }
        ensures fuse { (state self.new).left ≡ (state self.old).left }
        ensures answer { Answers enlist_open result (enlists conts.now) (durable self.old) }
        ensures many { IfErr result IsManyShown }
        ensures kept { Makes (state self.old).stopped enlist_stop (enlisted conts.now) result
            (durable self.old) (durable self.new) (may self.old) (may self.new) };

    /// Adds an entry and its writes, unsettled.
    ///
    /// # Errors
    ///
    /// `NoSpace` exactly where fewer blocks are free than the writes may take, with both numbers.
    fn prepare(&mut self, entry: &Entry, writes: &[MinorWrite]) -> Result<(), PrepareNo>
        requires form { IsPreparable (state self.old) entry.now writes.now }
        requires here { IfRunning (state self.old) (ForSome (durable self.old) (CanPrepare (state self.old) entry.now writes.now)) }
        ensures call { Turns (blocks writes.now) prepare_stop result (state self.old) (state self.new) }
        ensures fuse { UsesFuse prepare_stop result (state self.old) (state self.new) }
        ensures space { MatchResult result (λ _. blocks writes.now ≤ (state self.old).free)
            (PrepareWhy (blocks writes.now) (state self.old).free) }
        ensures kept { Makes (state self.old).stopped prepare_stop (prepared entry.now writes.now) result
            (durable self.old) (durable self.new) (may self.old) (may self.new) };

    /// A step of an attempt: its versions are done and its entry committed; both go; a further
    /// member is confirmed; its entry goes, and its done versions stay. Takes no memory.
    fn settle(&mut self, attempt: AttemptId, step: Settle) -> Result<(), Stopped>
        requires form { IsStep step }
        requires here { IfRunning (state self.old) (ForSome (durable self.old) (CanSettle attempt step)) }
        ensures call { Turns 0 always_stop result (state self.old) (state self.new) }
        ensures fuse { UsesFuse always_stop result (state self.old) (state self.new) }
        ensures kept { Makes (state self.old).stopped always_stop (settled attempt step) result
            (durable self.old) (durable self.new) (may self.old) (may self.new) };

    /// Sets the lease, in ticks. Takes no memory.
    fn extend_lease(&mut self, ticks: u64) -> Result<(), Stopped>
        requires last { ticks < 2 ^ 56 }
        requires on { IfRunning (state self.old) (ForSome (durable self.old) (λ d. d.lease ≤ ticks)) }
        ensures call { Turns 0 always_stop result (state self.old) (state self.new) }
        ensures fuse { UsesFuse always_stop result (state self.old) (state self.new) }
        ensures free { (state self.new).free ≡ (state self.old).free }
        ensures kept { Makes (state self.old).stopped always_stop (leased ticks) result
            (durable self.old) (durable self.new) (may self.old) (may self.new) };

    /// Freezes a snapshot of a container, and raises the floor to it. A second freeze of the same
    /// epoch changes nothing. Takes no memory.
    ///
    /// # Errors
    ///
    /// `Below` exactly where the epoch is at or below the aggregated-to epoch, which it shows with
    /// the number of its aggregation. `NoPlace` exactly where that doesn't hold and 256 other places
    /// are used.
    fn freeze(&mut self, cont: ContId, s: Epoch) -> Result<(), FreezeNo>
        requires { IfRunning (state self.old) (ForSome (durable self.old) (CanFreeze cont s)) }
        ensures call { Turns 0 freeze_stop result (state self.old) (state self.new) }
        ensures fuse { UsesFuse freeze_stop result (state self.old) (state self.new) }
        ensures free { (state self.new).free ≡ (state self.old).free }
        ensures answer { Answers freeze_stop result (freezes cont s) (durable self.old) }
        ensures kept { Makes (state self.old).stopped freeze_stop (frozen cont s) result
            (durable self.old) (durable self.new) (may self.old) (may self.new) };

    /// Notes that a frozen snapshot is created. Takes no memory.
    fn create(&mut self, cont: ContId, s: Epoch) -> Result<(), Stopped>
        requires { IfRunning (state self.old) (ForSome (durable self.old) (λ d. is_frozen d cont s ≡ true)) }
        ensures call { Turns 0 always_stop result (state self.old) (state self.new) }
        ensures fuse { UsesFuse always_stop result (state self.old) (state self.new) }
        ensures free { (state self.new).free ≡ (state self.old).free }
        ensures kept { Makes (state self.old).stopped always_stop (created cont s) result
            (durable self.old) (durable self.new) (may self.old) (may self.new) };

    /// Drops a frozen snapshot. Takes no memory.
    fn thaw(&mut self, cont: ContId, s: Epoch) -> Result<(), Stopped>
        requires { IfRunning (state self.old) (ForSome (durable self.old) (λ d. is_frozen d cont s ≡ true)) }
        ensures call { Turns 0 always_stop result (state self.old) (state self.new) }
        ensures fuse { UsesFuse always_stop result (state self.old) (state self.new) }
        ensures free { (state self.new).free ≡ (state self.old).free }
        ensures kept { Makes (state self.old).stopped always_stop (thawed cont s) result
            (durable self.old) (durable self.new) (may self.old) (may self.new) };

    /// Aggregates a container up to an epoch: raises the aggregated-to epoch and the floor to it,
    /// each where it is greater, and removes the updates that neither a snapshot nor a read above sees
    /// and the punches under which no older update stays. Each gives back a block at least. Takes no memory.
    fn prune(&mut self, cont: ContId, upto: Epoch, number: u32) -> Result<(), Stopped>
        requires { IfRunning (state self.old) (ForSome (durable self.old) (CanPrune cont upto)) }
        ensures call { Turns 0 always_stop result (state self.old) (state self.new) }
        ensures fuse { UsesFuse always_stop result (state self.old) (state self.new) }
        ensures space { OnOk result (ForSome (durable self.old) (λ d.
            (state self.old).free + going_count cont upto d ≤ (state self.new).free)) }
        ensures kept { MakesPartly (state self.old).stopped always_stop (pruned cont upto number)
            (CutPrune cont upto number) result
            (durable self.old) (durable self.new) (may self.old) (may self.new) };

    /// Removes a container's versions with epochs from `lo` to `hi`.
    ///
    /// # Errors
    ///
    /// `Unsettled` exactly where one of them is unsettled, with the attempt of the one of the least
    /// epoch.
    fn discard(&mut self, cont: ContId, lo: Epoch, hi: Epoch) -> Result<(), DiscardNo>
        requires { IfRunning (state self.old) (ForSome (durable self.old) (λ d. is_enlisted d cont ≡ true)) }
        ensures call { Turns 0 discard_stop result (state self.old) (state self.new) }
        ensures fuse { UsesFuse discard_stop result (state self.old) (state self.new) }
        ensures answer { Answers discard_open result (discards cont lo hi) (durable self.old) }
        ensures kept { MakesPartly (state self.old).stopped discard_stop (discarded cont lo hi)
            (CutDiscard cont lo hi) result
            (durable self.old) (durable self.new) (may self.old) (may self.new) };

    /// The answer of a read on the done versions below an epoch. It is of the kind that the read
    /// asks for, also where nothing is told.
    ///
    /// # Errors
    ///
    /// `Aggregated` exactly where the epoch is at or below the aggregated-to epoch, which it shows
    /// with the number of its aggregation, and isn't frozen here. Else `Unsettled` exactly where a
    /// version on an overlapping path below the epoch is unsettled, with the attempt of the one of
    /// the least epoch.
    fn fetch(&mut self, read: &Read, below: Epoch) -> Result<Answer, FetchNo>
        requires form { is_read_in_form read.now ≡ true }
        requires enlisted { IfRunning (state self.old) (ForSome (durable self.old) (λ d. is_enlisted d (read_path read.now).cont ≡ true)) }
        ensures call { Turns 0 fetch_stop result (state self.old) (state self.new) }
        ensures free { (state self.new).free ≡ (state self.old).free }
        ensures fuse { (state self.new).left ≡ (state self.old).left }
        ensures answer { Answers fetch_open result (fetched read.now below) (durable self.old) }
        ensures kind { IfOk result (λ answer. is_of_kind read.now answer ≡ true) }
        ensures kept { Looks (says fetch_stop result) (durable self.old) (durable self.new)
            (may self.old) (may self.new) };

    /// A write on an overlapping path with an epoch above one and at or below another, if there is
    /// one: the one of the least epoch, and of several of that epoch the one of the least number in
    /// its transaction.
    fn later_write(
        &mut self,
        path: &Path,
        above: Epoch,
        upto: Epoch,
    ) -> Result<Option<Shown>, LaterNo>
        requires form { is_path_in_form path.now ≡ true }
        requires enlisted { IfRunning (state self.old) (ForSome (durable self.old) (λ d. is_enlisted d path.now.cont ≡ true)) }
        ensures call { Turns 0 later_stop result (state self.old) (state self.new) }
        ensures free { (state self.new).free ≡ (state self.old).free }
        ensures fuse { (state self.new).left ≡ (state self.old).left }
        ensures answer { Answers later_open result (λ d. Ok (later_write path.now above upto d)) (durable self.old) }
        ensures shown { IfOk result (λ shown. IfSome shown (λ x. is_path_in_form x.path ≡ true)) }
        ensures kept { Looks (says later_stop result) (durable self.old) (durable self.new)
            (may self.old) (may self.new) };

    /// The entries, in the order of attempts.
    fn entries(&mut self) -> Result<Entries, LaterNo>
        ensures call { Turns 0 later_stop result (state self.old) (state self.new) }
        ensures free { (state self.new).free ≡ (state self.old).free }
        ensures fuse { (state self.new).left ≡ (state self.old).left }
        ensures answer { ForSome (durable self.old) (λ d. IfOk result (λ entries. entries ≡ d.entries)) }
        ensures kept { Looks (says later_stop result) (durable self.old) (durable self.new)
            (may self.old) (may self.new) };

    /// The objects of a container that have a version here, settled or not, each once, in the order
    /// of class, number and record size.
    fn objects(&mut self, cont: ContId) -> Result<ObjIds, LaterNo>
        requires enlisted { IfRunning (state self.old) (ForSome (durable self.old) (λ d. is_enlisted d cont ≡ true)) }
        ensures call { Turns 0 later_stop result (state self.old) (state self.new) }
        ensures free { (state self.new).free ≡ (state self.old).free }
        ensures fuse { (state self.new).left ≡ (state self.old).left }
        ensures answer { ForSome (durable self.old) (λ d. IfOk result (λ objects. objects ≡ objects_in cont d)) }
        ensures kept { Looks (says later_stop result) (durable self.old) (durable self.new)
            (may self.old) (may self.new) };

    /// The containers that are enlisted, in order.
    fn conts(&self) -> Result<ContIds, Memory>
        ensures { IfRunning (state self.now)
            (ForSome (durable self.now) (λ d. IfOk result (λ conts. conts ≡ enlisted_in d))) };

    /// The floor of a container, at or below which no write is taken, and what set it: the stored
    /// one, or that of the last opening where it isn't below. Also where nothing is told, it is that of
    /// the last opening, or a snapshot or an aggregation set it.
    fn floor(&self, cont: ContId) -> (Epoch, FloorWhy)
        requires { IfRunning (state self.now) (ForSome (durable self.now) (λ d. is_enlisted d cont ≡ true)) }
        ensures floor { IfRunning (state self.now)
            (ForSome (durable self.now) (λ d. result ≡ floor_of (state self.now).opening d cont)) }
        ensures why { IfRunning (state self.now) (IsFloorShown (state self.now).opening result) };

    /// The aggregated-to epoch of a container, 0 where there is none. Takes no memory.
    fn aggregated(&self, cont: ContId) -> Epoch
        requires { IfRunning (state self.now) (ForSome (durable self.now) (λ d. is_enlisted d cont ≡ true)) }
        ensures { IfRunning (state self.now)
            (ForSome (durable self.now) (λ d. result ≡ (row_of d cont).aggregated)) };

    /// The least epoch, at or below this one, of the container's versions that aren't settled, if there is
    /// one: an aggregation has to stay below it. Takes no memory.
    fn open_below(&self, cont: ContId, upto: Epoch) -> Option<Epoch>
        requires { IfRunning (state self.now) (ForSome (durable self.now) (λ d. is_enlisted d cont ≡ true)) }
        ensures { IfRunning (state self.now)
            (ForSome (durable self.now) (λ d. result ≡ open_below cont upto d)) };

    /// The snapshots, in the order of containers and epochs.
    fn snaps(&self) -> Result<Snaps, Memory>
        ensures { IfRunning (state self.now)
            (ForSome (durable self.now) (λ d. IfOk result (λ snaps. snaps ≡ d.snaps))) };

    /// The lease, in ticks. The floor of the last opening isn't above the floor that it gives, also
    /// where nothing is told.
    fn lease(&self) -> u64
        ensures lease { IfRunning (state self.now) (ForSome (durable self.now) (λ d. result ≡ d.lease)) }
        ensures covers { IfRunning (state self.now) ((state self.now).opening.0.0 ≤ restart_floor result) };

    /// How often it was opened.
    fn incarnation(&self) -> u64
        ensures { IfRunning (state self.now) (ForSome (durable self.now) (λ d. result ≡ d.incarnation)) };

    /// Opens it again, stopped or not: raises the incarnation and sets the floor that the lease
    /// gives, with the number of the restart. Where a change was cut, what it keeps is what it kept
    /// before, or what the change makes.
    ///
    /// # Errors
    ///
    /// `Stopped` only where `faults` or `burnt` rose in this call. `Foreign` shows a byte of the
    /// region and its place, and never comes from a store that tells what it keeps. After each
    /// refusal the store is stopped.
    fn reopen(&mut self, number: u32) -> Result<(), ReopenNo>
        requires { ForSome (durable self.old) (λ _. (x : Durable) → may self.old x → x.incarnation + 1 < 2 ^ 64) }
        ensures call { Opens result (state self.old) (state self.new) }
        ensures kept { Finds result (durable self.old) (durable self.new) (may self.old) (may self.new) }
        ensures floor { OnOk result (ForSome (durable self.new) (λ d.
            (state self.new).opening.0.0 ≡ restart_floor d.lease)) }
        ensures why { OnOk result ((state self.new).opening.1 ≡ FloorWhy.Restart number) }
        ensures free { IsSome (durable self.old) → (state self.old).free ≤ (state self.new).free }
        ensures native { IsSome (durable self.old) → says reopen_foreign result ≡ false };

    /// How many blocks are free.
    fn free(&self) -> u32
        ensures { result ≡ (state self.now).free };

    /// How often the outside has failed it, up to 2^64 - 1.
    fn faults(&self) -> u64
        ensures { result ≡ (state self.now).faults };

    /// How often a fuse has stopped it, up to 2^64 - 1.
    fn burnt(&self) -> u64
        ensures { result ≡ (state self.now).burns };

    /// A store that isn't stopped opens with what it keeps.
    ghost steady: { (s : Self) (d x : Durable) → (state s).stopped ≡ false → durable s ≡ Some d → may s x → x ≡ d };

    /// Something may be found at its next opening.
    ghost findable: { (s : Self) → is_some (durable s) ≡ true → (x : Durable) × may s x };

    /// Whether what is kept is told is the same of all stores of a type.
    ghost alike: { (s t : Self) → is_some (durable s) ≡ true → is_some (durable t) ≡ true };

    /// What a store that isn't stopped keeps is in order, and in form.
    ghost formed: { (s : Self) → (state s).stopped ≡ false → ForSome (durable s) IsInForm };
}

/// A store that can be made to stop.
pub trait Fuse: Store {
    /// Sets a fuse: the store stops at its `k`-th write to its region from now on, or its `k`-th
    /// change that isn't refused where it has no region, once, and `burnt` then rises. 0 sets none,
    /// and takes away one that is set. It changes nothing that the store keeps, and takes no memory.
    fn fuse(&mut self, k: u32)
        ensures state { SetsFuse k (Self.state self.old) (Self.state self.new) }
        ensures durable { Self.durable self.new ≡ Self.durable self.old }
        ensures left { (x : Durable) → Self.may self.new x → Self.may self.old x };
}
