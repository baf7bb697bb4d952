// A target of a run.
ghost use Rattle.std.specs.Prelude.{◌≡◌, ◌≤◌, ◌<◌, ◌+◌, ◌^◌, ℕ, [], IfOk, IfErr, IfSome, IsSome, Some, is_ok, is_some, true, false, ◌∷◌};
ghost use Rattle.target_reads.specs.world_ended.Asking.{Asked, GoesWith, TurnLeavesWith, TurnsEndAsked};
ghost use Rattle.world_base.specs.Stops.{is_prune_message};
ghost use Rattle.target_reads.specs.world_letters.kinds.PostLaws.{CarryNone};
ghost use Rattle.target_reads.specs.world_letters.kinds.Loads.{AnswersOnce};
ghost use Rattle.std.specs.Option.{ForSome};
ghost use Rattle.daos_model.specs.declared.durable.Durable.{Durable};
ghost use Rattle.dtx_base.specs.Leading.{first_memory};
ghost use Rattle.dtx_base.specs.Joining.{first_member};
ghost use Rattle.vos_store.specs.Calls.{SetsFuse};
ghost use Rattle.vos_store.specs.Refusals.{says};
ghost use Rattle.world_base.specs.Idle.{has_idle};
ghost use Rattle.target_parts.specs.world_contents.posts.Forms.{TurnFollows, TurnsPostInForm};
ghost use Rattle.target_parts.specs.Knowing.{IsHeard};
ghost use Rattle.target_parts.specs.Parts.{Runs};
ghost use Rattle.target_parts.specs.Readings.{AreReadings, IsReadUpTo, most_readings};
ghost use Rattle.target_parts.specs.Stops.{IsSilent, stop_foreign, stop_store, stop_wanting};
ghost use Rattle.target_snaps.specs.Following.{TellsNoAttempt};
ghost use Rattle.target_resync.specs.Openings.{IsBare, Left, Reopens, TellsRestart};
ghost use Rattle.target_core.specs.Targets.{CanHear, HearsOrStops, IdlesOrStops, IsInForm, OpensAs, has_epoch, is_held, is_making, is_of_client};

use crate::hearing::hear_message;
use base_messages::actor::ActorId;
use base_messages::message::Message;
use base_outside::clock::Clock;
use base_types::epoch::TargetId;
use base_types::items::Items;
use snap_core::snaps::SnapCore;
use std::alloc::Global;
use std::marker::Model;
use target_parts::knows::Knows;
use target_parts::stop::TargetStop;
use target_resync::below::dtx::idle::{has_idle_work, idle_work};
use target_resync::opening::first_knows;
use target_resync::restarts::{Opened, restart};
use vos_store::store::{Fuse, Store};
use world_base::did::Did;
use world_base::target::TargetPlan;

/// A target: its store, its clock, and what it knows until it stops. Unless its store is stopped, the
/// attempts that it has to decide or to settle are prepared there, no version there is later than its
/// ticks, the lease covers them, and each snapshot that it is making is frozen there. Where its last
/// opening failed, it hears nothing until it has opened.
#[derive(Drop)]
pub struct Target<S: Store, C: Clock> {
    alloc: Global,
    plan: TargetPlan,
    store: S,
    clock: C,
    knows: Knows,
    snaps: SnapCore,
    opened: bool,
}

impl<S: Store, C: Clock> Model for Target<S, C> {
    ghost use Rattle.base_messages.specs.contracts.message.Message as message;
    ghost use Rattle.std.specs.Coded.{codes};
    ghost use Rattle.snap_core.specs.Snaps.{remembered};
    ghost use Rattle.target_core.specs.Targets.{StandsAs, TargetOf};
    ghost use Rattle.target_parts.specs.Knowing.{memory_of};

    ghost Value = { TargetOf S C };

    ghost coded = { Prim.hlevel (codes, message.the_row.coded) };

    ghost view = { λ t. record { plan = t.plan; store = t.store; clock = t.clock; memory = remembered (memory_of t.knows) t.snaps; opened = t.opened } };

    ghost invariant = { λ t. StandsAs t.plan (S.state t.store) (S.durable t.store) t.knows t.snaps t.opened };
}

/// No target was made, for want of memory. Its parts are handed back.
#[derive(Drop)]
pub struct TargetNew<S, C> {
    pub store: S,
    pub clock: C,
}

// The number that was drawn, if one was.
fn drawn(number: Option<u32>) -> u32
    ensures { (n : ℕ) → number ≡ Some n → result ≡ n }
{
    match number {
        Some(number) => number,
        None => 0,
    }
}

impl<S: Store, C: Clock> Target<S, C> {
    /// A target that has just opened, with this number among so many targets, over a store without
    /// entries. Its ticks begin at the lease, which covers every version. It served no read,
    /// remembers no attempt and makes no snapshot. Up to `epsilon` ticks its clocks leave open which of two epochs was first.
    ///
    /// # Errors
    ///
    /// For want of memory alone; the store and the clock are handed back.
    pub fn new(
        alloc: Global,
        me: TargetId,
        targets: u8,
        epsilon: u32,
        store: S,
        clock: C,
    ) -> Result<Self, TargetNew<S, C>>
        requires one { me < targets }
        requires few { targets ≤ 64 }
        requires made { targets ≤ (S.state store).targets }
        requires running { (S.state store).stopped ≡ false }
        requires opened { ForSome (S.durable store) (λ d. IsHeard d.lease d) }
        requires empty { ForSome (S.durable store) (λ d. d.entries ≡ []) }
        ensures plan { IfOk result (λ t. t.plan ≡ record { me = me; targets = targets; epsilon = epsilon }) }
        ensures store { IfOk result (λ t. t.store ≡ store) }
        ensures clock { IfOk result (λ t. t.clock ≡ clock) }
        ensures ticks { IfOk result (λ t. ForSome (S.durable store) (λ d. t.memory.ticks ≡ d.lease)) }
        ensures unread { IfOk result (λ t. t.memory.stamps ≡ []) }
        ensures leader { IfOk result (λ t. t.memory.leader ≡ first_memory []) }
        ensures member { IfOk result (λ t. t.memory.member ≡ (first_member me).memory) }
        ensures making { IfOk result (λ t. t.memory.collecting ≡ []) }
        ensures opened { IfOk result (λ t. t.opened ≡ true) }
        ensures handed_back { IfErr result (λ parts. parts ≡ record { store = store; clock = clock }) }
    {
        let plan = TargetPlan {
            me,
            targets,
            epsilon,
        };
        let Ok(snaps) = SnapCore::new(alloc, me, targets) else {
            return Err(TargetNew { store, clock });
        };
        match first_knows(alloc, plan, store.lease(), Items::new(alloc)) {
            Ok(knows) => Ok(Target {
                alloc,
                plan,
                store,
                clock,
                knows,
                snaps,
                opened: true,
            }),
            Err(_memory) => Err(TargetNew { store, clock }),
        }
    }

    /// It hears a message, and tells what follows. Its clock is read once at most, and only where an
    /// epoch is to be issued; there just once, unless memory is wanting. The number is one drawn for this turn, for an aggregation; a Prune uses it.
    ///
    /// # Errors
    ///
    /// `Store` where the store stopped, and then the turn was cut short; else for want of memory.
    pub fn hear(
        &mut self,
        from: ActorId,
        message: Message,
        number: Option<u32>,
    ) -> Result<Did, TargetStop>
        requires opened { self.old.opened ≡ true }
        requires running { (S.state self.old.store).stopped ≡ false }
        requires drawn { is_prune_message message ≡ true → is_some number ≡ true }
        requires sender { is_held message ≡ true → from.number < 64 }
        requires form { IsInForm self.old.plan message }
        requires here { ForSome (S.durable self.old.store) (CanHear self.old.plan message) }
        ensures plan { self.new.plan ≡ self.old.plan }
        ensures opened { self.new.opened ≡ true }
        ensures runs { Runs stop_store result (S.state self.old.store) (S.state self.new.store) (S.durable self.old.store) (S.durable self.new.store) }
        ensures turn { (reading : ℕ) × IfSome (C.next self.old.clock) (λ r. r ≡ reading) × ((n : ℕ) → (is_prune_message message ≡ true → number ≡ Some n) → (d : Durable) → S.durable self.old.store ≡ Some d
            → HearsOrStops n self.old.plan self.old.memory reading from message d (S.state self.old.store)
            (S.durable self.new.store) (S.state self.new.store) (S.may self.new.store) self.new.memory result) }
        ensures native { says stop_foreign result ≡ false }
        ensures told { TellsNoAttempt result }
        ensures silent { is_making message ≡ false → IsSilent result }
        ensures clock { IsReadUpTo C.is_read (most_readings (has_epoch message)) self.old.clock self.new.clock }
        ensures read { says stop_wanting result ≡ false → AreReadings C.is_read (most_readings (has_epoch message)) self.old.clock self.new.clock }
        ensures unread { has_epoch message ≡ true → self.new.clock ≡ self.old.clock }
        ensures posts { is_of_client message ≡ from.client → IfOk result (λ did. TurnsPostInForm self.old.plan.targets self.old.memory self.new.memory did.posts) }
        ensures reads { IfOk result (λ did. AnswersOnce (message ∷ []) self.old.memory.member self.new.memory.member did.posts) }
        ensures ends { (asked : Asked) → GoesWith asked message → IfOk result (λ did. TurnsEndAsked asked self.old.memory self.new.memory did.posts) }
    {
        let number = drawn(number);
        let Target {
            alloc,
            plan,
            store,
            clock,
            knows,
            snaps,
            ..
        } = self;
        hear_message(
            *alloc, *plan, store, clock, knows, snaps, from, message, number,
        )
    }

    /// It does its idle work: it settles the attempts that it decided, tells the other members of what is
    /// committed, and in the settling phase asks other leaders what became of what is prepared here.
    ///
    /// # Errors
    ///
    /// `Store` where the store stopped, and then the turn was cut short; else for want of memory.
    pub fn idle(&mut self, settling: bool) -> Result<Did, TargetStop>
        requires opened { self.old.opened ≡ true }
        requires running { (S.state self.old.store).stopped ≡ false }
        ensures plan { self.new.plan ≡ self.old.plan }
        ensures opened { self.new.opened ≡ true }
        ensures clock { self.new.clock ≡ self.old.clock }
        ensures runs { Runs stop_store result (S.state self.old.store) (S.state self.new.store) (S.durable self.old.store) (S.durable self.new.store) }
        ensures turn { (d : Durable) → S.durable self.old.store ≡ Some d
            → IdlesOrStops settling self.old.plan self.old.memory d (S.state self.old.store)
            (S.durable self.new.store) (S.state self.new.store) (S.may self.new.store) self.new.memory result }
        ensures native { says stop_foreign result ≡ false }
        ensures told { TellsNoAttempt result }
        ensures silent { IsSilent result }
        ensures posts { IfOk result (λ did. TurnsPostInForm self.old.plan.targets self.old.memory self.new.memory did.posts) }
        ensures reads { IfOk result (λ did. AnswersOnce [] self.old.memory.member self.new.memory.member did.posts) }
        ensures ends { (asked : Asked) → IfOk result (λ did. TurnsEndAsked asked self.old.memory self.new.memory did.posts) }
    {
        idle_work(
            self.alloc,
            self.plan,
            &mut self.store,
            &mut self.knows,
            settling,
        )
    }

    /// Whether it has idle work: attempts that it decided aren't settled, another member is to be told of
    /// a commit, or, in the settling phase, a leader is to be asked. While its store is stopped, or where
    /// it didn't open, this says nothing.
    pub fn has_idle(&self, settling: bool) -> bool
        ensures { self.now.opened ≡ true → (S.state self.now.store).stopped ≡ false → (d : Durable) → S.durable self.now.store ≡ Some d → result ≡ has_idle settling self.now.plan self.now.memory d }
    {
        self.opened && has_idle_work(self.plan, &self.store, &self.knows, settling)
    }

    /// It opens again, by the restart of this number: its store opens with one of what it may have kept,
    /// its incarnation raised. What it knows then is what one knows that has just opened; it adds its
    /// restart line, and asks the other members of each attempt that it leads and that isn't committed.
    /// Its clock isn't read.
    ///
    /// # Errors
    ///
    /// `Store` where a count of the store rose, which is then stopped; `Foreign` where the store met a
    /// foreign byte, which never comes from one that tells what it keeps; else for want of memory. No line
    /// is added then, and the next opening finds what this one may have found, with the incarnation raised
    /// or not. After each of these the target neither hears nor does idle work until it has opened.
    pub fn restart(&mut self, number: u32) -> Result<Did, TargetStop>
        requires counted { ForSome (S.durable self.old.store) (λ _. (x : Durable) → S.may self.old.store x → x.incarnation + 1 < 2 ^ 64) }
        requires covered { ForSome (S.durable self.old.store) (λ _. (x : Durable) → S.may self.old.store x → IsHeard x.lease x) }
        ensures plan { self.new.plan ≡ self.old.plan }
        ensures clock { self.new.clock ≡ self.old.clock }
        ensures opens { Reopens result (S.state self.old.store) (S.state self.new.store) (S.durable self.old.store) (S.durable self.new.store) }
        ensures turn { ForSome (S.durable self.old.store) (λ _. IfOk result (OpensAs self.old.plan number (S.may self.old.store) (S.durable self.new.store) (S.state self.new.store) self.new.memory)) }
        ensures left { Left (S.may self.old.store) (S.may self.new.store) }
        ensures bare { IfErr result IsBare }
        ensures native { IsSome (S.durable self.old.store) → says stop_foreign result ≡ false }
        ensures posts { IfOk result (λ did. TurnFollows self.old.plan.targets self.new.memory did.posts) }
        ensures reads { IfOk result (λ did. CarryNone did.posts) }
        ensures ends { (asked : Asked) → IfOk result (λ did. TurnLeavesWith asked self.new.memory did.posts) }
        ensures fresh { is_ok result ≡ true → self.new.memory.member.parked ≡ [] }
        ensures line { IfOk result (TellsRestart number self.old.plan.me) }
        ensures opened { self.new.opened ≡ is_ok result }
    {
        let Ok(snaps) = SnapCore::new(self.alloc, self.plan.me, self.plan.targets) else {
            self.opened = false;
            return Err(TargetStop::Memory);
        };
        match restart(self.alloc, self.plan, &mut self.store, number) {
            Ok(Opened { knows, did }) => {
                self.knows = knows;
                self.snaps = snaps;
                self.opened = true;
                Ok(did)
            }
            Err(stop) => {
                self.opened = false;
                Err(stop)
            }
        }
    }

    /// How often the outside has failed its store, up to 2^64 - 1.
    pub fn faults(&self) -> u64
        ensures { result ≡ (S.state self.now.store).faults }
    {
        self.store.faults()
    }

    /// How often a fuse has stopped its store, up to 2^64 - 1.
    pub fn burnt(&self) -> u64
        ensures { result ≡ (S.state self.now.store).burns }
    {
        self.store.burnt()
    }

    /// The store and the clock; what the target knows is gone.
    pub fn into_parts(self) -> (S, C)
        ensures store { result.0 ≡ self.store }
        ensures clock { result.1 ≡ self.clock }
    {
        let Target {
            alloc: _alloc,
            plan: _plan,
            store,
            clock,
            knows: _knows,
            snaps: _snaps,
            opened: _opened,
        } = self;
        (store, clock)
    }
}

impl<S: Fuse, C: Clock> Target<S, C> {
    /// Sets a fuse of its store: it stops at its `k`-th write to its region from now on, or its `k`-th
    /// change where it has no region, once. 0 takes away one that is set. It changes nothing else, and
    /// takes no memory.
    pub fn fuse(&mut self, k: u32)
        ensures plan { self.new.plan ≡ self.old.plan }
        ensures clock { self.new.clock ≡ self.old.clock }
        ensures memory { self.new.memory ≡ self.old.memory }
        ensures opened { self.new.opened ≡ self.old.opened }
        ensures state { SetsFuse k (S.state self.old.store) (S.state self.new.store) }
        ensures durable { S.durable self.new.store ≡ S.durable self.old.store }
        ensures left { (x : Durable) → S.may self.new.store x → S.may self.old.store x }
    {
        self.store.fuse(k);
    }
}
