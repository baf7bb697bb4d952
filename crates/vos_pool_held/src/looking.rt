// What an open pool answers from memory.
use crate::held::Held;
use base_outside::region::Region;
use base_types::answer::Answer;
use base_types::entry::Entries;
use base_types::epoch::Epoch;
use base_types::id::ContId;
use base_types::items::Memory;
use base_types::operation::Read;
use base_types::outcome::FloorWhy;
use base_types::path::Path;
use base_types::shown::Shown;
use base_types::snapshot::Snaps;
use vos_store::listed::{ContIds, ObjIds};
use vos_store::refusal::{FetchNo, LaterNo};

impl<R: Region> Held<R> {
    ghost use Rattle.std.specs.Prelude.{◌≡◌, ◌≤◌, true, Ok, IfOk, IfSome};
    ghost use Rattle.std.specs.Option.{ForSome};
    ghost use Rattle.base_types.specs.Epochs.{restart_floor};
    ghost use Rattle.base_types.specs.Operations.{read_path};
    ghost use Rattle.daos_model.specs.Durables.{is_enlisted, row_of};
    ghost use Rattle.daos_model.specs.Forms.{is_path_in_form, is_read_in_form};
    ghost use Rattle.daos_model.specs.Kinds.{is_of_kind};
    ghost use Rattle.vos_pool_held.specs.State.{held_durable, held_may, held_state};
    ghost use Rattle.vos_store.specs.Answers.{IsFloorShown, enlisted_in, fetched, floor_of, later_write, objects_in, open_below};
    ghost use Rattle.vos_store.specs.Calls.{Answers, IfRunning, Looks, Turns};
    ghost use Rattle.vos_store.specs.Refusals.{fetch_open, fetch_stop, later_open, later_stop, says};

    /// Whether it has stopped.
    pub fn is_stopped(&self) -> bool
        ensures { result ≡ self.now.opened.blocks.undo.stopped }
    {
        self.opened.blocks.is_stopped()
    }

    /// The answer of a read on the done versions below an epoch. It is of the kind that the read
    /// asks for, also where nothing is told.
    ///
    /// # Errors
    ///
    /// `Stopped` where it has stopped. `Aggregated` exactly where the epoch is at or below the aggregated-to
    /// epoch, which it shows with the number of its aggregation, and isn't frozen here. Else `Unsettled`
    /// exactly where a version on an overlapping path below the epoch is unsettled, with the attempt of the
    /// one of the least epoch. `Memory` for want of memory.
    pub fn fetch(&mut self, read: &Read, below: Epoch) -> Result<Answer, FetchNo>
        requires form { is_read_in_form read.now ≡ true }
        requires enlisted { IfRunning (held_state R.count R.burns R.can_burn self.old) (ForSome (held_durable R.tells R.extent R.image self.old) (λ d. is_enlisted d (read_path read.now).cont ≡ true)) }
        ensures call { Turns 0 fetch_stop result (held_state R.count R.burns R.can_burn self.old) (held_state R.count R.burns R.can_burn self.new) }
        ensures free { (held_state R.count R.burns R.can_burn self.new).free ≡ (held_state R.count R.burns R.can_burn self.old).free }
        ensures fuse { (held_state R.count R.burns R.can_burn self.new).left ≡ (held_state R.count R.burns R.can_burn self.old).left }
        ensures size { R.extent self.new.opened.blocks.undo.region ≡ R.extent self.old.opened.blocks.undo.region }
        ensures target { self.new.target ≡ self.old.target }
        ensures answer { Answers fetch_open result (fetched read.now below) (held_durable R.tells R.extent R.image self.old) }
        ensures kind { IfOk result (λ answer. is_of_kind read.now answer ≡ true) }
        ensures kept { Looks (says fetch_stop result) (held_durable R.tells R.extent R.image self.old) (held_durable R.tells R.extent R.image self.new)
            (held_may R.tells R.extent R.may_leave self.old) (held_may R.tells R.extent R.may_leave self.new) }
    {
        if self.is_stopped() {
            return Err(FetchNo::Stopped);
        }
        self.contents.fetch(read, below)
    }

    /// A write on an overlapping path with an epoch above one and at or below another, if there is
    /// one: the one of the least epoch, and of several of that epoch the one of the least number in
    /// its transaction.
    ///
    /// # Errors
    ///
    /// `Stopped` where it has stopped. `Memory` for want of memory.
    pub fn later_write(
        &mut self,
        path: &Path,
        above: Epoch,
        upto: Epoch,
    ) -> Result<Option<Shown>, LaterNo>
        requires form { is_path_in_form path.now ≡ true }
        requires enlisted { IfRunning (held_state R.count R.burns R.can_burn self.old) (ForSome (held_durable R.tells R.extent R.image self.old) (λ d. is_enlisted d path.now.cont ≡ true)) }
        ensures call { Turns 0 later_stop result (held_state R.count R.burns R.can_burn self.old) (held_state R.count R.burns R.can_burn self.new) }
        ensures free { (held_state R.count R.burns R.can_burn self.new).free ≡ (held_state R.count R.burns R.can_burn self.old).free }
        ensures fuse { (held_state R.count R.burns R.can_burn self.new).left ≡ (held_state R.count R.burns R.can_burn self.old).left }
        ensures size { R.extent self.new.opened.blocks.undo.region ≡ R.extent self.old.opened.blocks.undo.region }
        ensures target { self.new.target ≡ self.old.target }
        ensures answer { Answers later_open result (λ d. Ok (later_write path.now above upto d)) (held_durable R.tells R.extent R.image self.old) }
        ensures shown { IfOk result (λ shown. IfSome shown (λ x. is_path_in_form x.path ≡ true)) }
        ensures kept { Looks (says later_stop result) (held_durable R.tells R.extent R.image self.old) (held_durable R.tells R.extent R.image self.new)
            (held_may R.tells R.extent R.may_leave self.old) (held_may R.tells R.extent R.may_leave self.new) }
    {
        if self.is_stopped() {
            return Err(LaterNo::Stopped);
        }
        match self.contents.later_write(path, above, upto) {
            Ok(shown) => Ok(shown),
            Err(_) => Err(LaterNo::Memory),
        }
    }

    /// The entries, in the order of attempts.
    ///
    /// # Errors
    ///
    /// `Stopped` where it has stopped. `Memory` for want of memory.
    pub fn entries(&mut self) -> Result<Entries, LaterNo>
        ensures call { Turns 0 later_stop result (held_state R.count R.burns R.can_burn self.old) (held_state R.count R.burns R.can_burn self.new) }
        ensures free { (held_state R.count R.burns R.can_burn self.new).free ≡ (held_state R.count R.burns R.can_burn self.old).free }
        ensures fuse { (held_state R.count R.burns R.can_burn self.new).left ≡ (held_state R.count R.burns R.can_burn self.old).left }
        ensures size { R.extent self.new.opened.blocks.undo.region ≡ R.extent self.old.opened.blocks.undo.region }
        ensures target { self.new.target ≡ self.old.target }
        ensures answer { ForSome (held_durable R.tells R.extent R.image self.old) (λ d. IfOk result (λ entries. entries ≡ d.entries)) }
        ensures kept { Looks (says later_stop result) (held_durable R.tells R.extent R.image self.old) (held_durable R.tells R.extent R.image self.new)
            (held_may R.tells R.extent R.may_leave self.old) (held_may R.tells R.extent R.may_leave self.new) }
    {
        if self.is_stopped() {
            return Err(LaterNo::Stopped);
        }
        match self.contents.entries() {
            Ok(entries) => Ok(entries),
            Err(_) => Err(LaterNo::Memory),
        }
    }

    /// The objects of a container that have a version here, settled or not, each once, in the order
    /// of class, number and record size.
    ///
    /// # Errors
    ///
    /// `Stopped` where it has stopped. `Memory` for want of memory.
    pub fn objects(&mut self, cont: ContId) -> Result<ObjIds, LaterNo>
        requires enlisted { IfRunning (held_state R.count R.burns R.can_burn self.old) (ForSome (held_durable R.tells R.extent R.image self.old) (λ d. is_enlisted d cont ≡ true)) }
        ensures call { Turns 0 later_stop result (held_state R.count R.burns R.can_burn self.old) (held_state R.count R.burns R.can_burn self.new) }
        ensures free { (held_state R.count R.burns R.can_burn self.new).free ≡ (held_state R.count R.burns R.can_burn self.old).free }
        ensures fuse { (held_state R.count R.burns R.can_burn self.new).left ≡ (held_state R.count R.burns R.can_burn self.old).left }
        ensures size { R.extent self.new.opened.blocks.undo.region ≡ R.extent self.old.opened.blocks.undo.region }
        ensures target { self.new.target ≡ self.old.target }
        ensures answer { ForSome (held_durable R.tells R.extent R.image self.old) (λ d. IfOk result (λ objects. objects ≡ objects_in cont d)) }
        ensures kept { Looks (says later_stop result) (held_durable R.tells R.extent R.image self.old) (held_durable R.tells R.extent R.image self.new)
            (held_may R.tells R.extent R.may_leave self.old) (held_may R.tells R.extent R.may_leave self.new) }
    {
        if self.is_stopped() {
            return Err(LaterNo::Stopped);
        }
        match self.contents.objects(cont) {
            Ok(objects) => Ok(objects),
            Err(_) => Err(LaterNo::Memory),
        }
    }

    /// The containers that are enlisted, in order.
    pub fn conts(&self) -> Result<ContIds, Memory>
        ensures { IfRunning (held_state R.count R.burns R.can_burn self.now)
            (ForSome (held_durable R.tells R.extent R.image self.now) (λ d. IfOk result (λ conts. conts ≡ enlisted_in d))) }
    {
        self.contents.enlisted()
    }

    /// The floor of a container, at or below which no write is taken, and what set it: the stored
    /// one, or that of the last opening where it isn't below. Also where nothing is told, it is that of
    /// the last opening, or a snapshot or an aggregation set it.
    pub fn floor(&self, cont: ContId) -> (Epoch, FloorWhy)
        requires { IfRunning (held_state R.count R.burns R.can_burn self.now) (ForSome (held_durable R.tells R.extent R.image self.now) (λ d. is_enlisted d cont ≡ true)) }
        ensures floor { IfRunning (held_state R.count R.burns R.can_burn self.now)
            (ForSome (held_durable R.tells R.extent R.image self.now) (λ d. result ≡ floor_of (held_state R.count R.burns R.can_burn self.now).opening d cont)) }
        ensures why { IfRunning (held_state R.count R.burns R.can_burn self.now) (IsFloorShown (held_state R.count R.burns R.can_burn self.now).opening result) }
    {
        self.contents.floor((self.floor, self.why), cont)
    }

    /// The aggregated-to epoch of a container, 0 where there is none. Takes no memory.
    pub fn aggregated(&self, cont: ContId) -> Epoch
        requires { IfRunning (held_state R.count R.burns R.can_burn self.now) (ForSome (held_durable R.tells R.extent R.image self.now) (λ d. is_enlisted d cont ≡ true)) }
        ensures { IfRunning (held_state R.count R.burns R.can_burn self.now)
            (ForSome (held_durable R.tells R.extent R.image self.now) (λ d. result ≡ (row_of d cont).aggregated)) }
    {
        self.contents.row(cont).aggregated
    }

    /// The least epoch, at or below this one, of the container's versions that aren't settled, if there is
    /// one: an aggregation has to stay below it. Takes no memory.
    pub fn open_below(&self, cont: ContId, upto: Epoch) -> Option<Epoch>
        requires { IfRunning (held_state R.count R.burns R.can_burn self.now) (ForSome (held_durable R.tells R.extent R.image self.now) (λ d. is_enlisted d cont ≡ true)) }
        ensures { IfRunning (held_state R.count R.burns R.can_burn self.now)
            (ForSome (held_durable R.tells R.extent R.image self.now) (λ d. result ≡ open_below cont upto d)) }
    {
        self.contents.open_below(cont, upto)
    }

    /// The snapshots, in the order of containers and epochs.
    pub fn snaps(&self) -> Result<Snaps, Memory>
        ensures { IfRunning (held_state R.count R.burns R.can_burn self.now)
            (ForSome (held_durable R.tells R.extent R.image self.now) (λ d. IfOk result (λ snaps. snaps ≡ d.snaps))) }
    {
        self.contents.snaps()
    }

    /// The lease, in ticks. The floor of the last opening isn't above the floor that it gives, also
    /// where nothing is told.
    pub fn lease(&self) -> u64
        ensures lease { IfRunning (held_state R.count R.burns R.can_burn self.now) (ForSome (held_durable R.tells R.extent R.image self.now) (λ d. result ≡ d.lease)) }
        ensures covers { IfRunning (held_state R.count R.burns R.can_burn self.now) ((held_state R.count R.burns R.can_burn self.now).opening.0.0 ≤ restart_floor result) }
    {
        self.contents.lease
    }

    /// How often it was opened.
    pub fn incarnation(&self) -> u64
        ensures { IfRunning (held_state R.count R.burns R.can_burn self.now) (ForSome (held_durable R.tells R.extent R.image self.now) (λ d. result ≡ d.incarnation)) }
    {
        self.contents.incarnation
    }

    /// How many blocks are free.
    pub fn free(&self) -> u32
        ensures { result ≡ (held_state R.count R.burns R.can_burn self.now).free }
    {
        self.free
    }

    /// How often the outside has failed its region, up to 2^64 - 1.
    pub fn faults(&self) -> u64
        ensures { result ≡ (held_state R.count R.burns R.can_burn self.now).faults }
    {
        self.opened.blocks.region().faults()
    }

    /// How often a fuse has stopped it, up to 2^64 - 1.
    pub fn burnt(&self) -> u64
        ensures { result ≡ (held_state R.count R.burns R.can_burn self.now).burns }
    {
        self.opened.blocks.region().burnt()
    }
}
