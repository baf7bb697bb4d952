// The turns of targets that run.
ghost use Rattle.std.specs.Prelude.{◌≡◌, ◌<◌, ◌≤◌, Bool, List, max, true, false, length, slice_get, IfErr, IfOk, OnErr, OnOk, Some};
ghost use Rattle.run_base.specs.Letters.{IsPicked};
ghost use Rattle.run_base.specs.Picks.{count_to};
ghost use Rattle.run_laws.specs.shows.Accounts.{AreServed};
ghost use Rattle.run_laws.specs.shows.CanGo.{CanTurn, IsHearable};
ghost use Rattle.run_laws.specs.shows.Ends.{LettersGoWith};
ghost use Rattle.run_laws.specs.shows.Kinds.{TurnsOnce};
ghost use Rattle.run_laws.specs.world_ended.Asking.{Asked, TurnsEndAsked};
ghost use Rattle.run_laws.specs.shows.Steps.{TargetBroke, TargetWorked};
ghost use Rattle.run_laws.specs.shows.Turned.{HasTurned};
ghost use Rattle.run_stage.specs.Now.{stage_now};
ghost use Rattle.run_laws.specs.target_core.Targets.{TargetOf};
ghost use Rattle.run_laws.specs.target_parts.Parts.{Runs};
ghost use Rattle.run_laws.specs.target_parts.Readings.{IsReadOn};
ghost use Rattle.run_laws.specs.target_parts.Stops.{stop_foreign, stop_store};
ghost use Rattle.run_laws.specs.target_snaps.Following.{TellsNoAttempt};
ghost use Rattle.vos_store.specs.Refusals.{says};
ghost use Rattle.world_base.specs.declared.letter.Letter.{Letter};
ghost use Rattle.world_base.specs.declared.target.Life.{Life};
ghost use Rattle.world_base.specs.Letters.{target};
ghost use Rattle.run_laws.specs.world_contents.posts.Forms.{TurnsPostInForm};

use crate::stage::Stage;
use crate::turns::target_id;
use base_outside::clock::Clock;
use base_types::items::Memory;
use run_base::between::Between;
use run_laws::below::parts::stop::TargetStop;
use run_laws::below::target::target::Target;
use vos_store::store::{Fuse, Store};
use world_base::did::Did;

// A turn of a target that runs: where messages are in flight to it, it hears the one of this number; else it does its idle work. It isn't
// begun where there are more aggregations than numbers, which is told as want of memory.
fn hear_or_idle<S: Store, C: Clock>(
    host: &mut Target<S, C>,
    between: &mut Between,
    t: usize,
    number: usize,
    settling: bool,
) -> Result<Result<Did, TargetStop>, Memory>
    requires few { t < 65536 }
    requires number { number < max 1 (count_to (target t) between.old.messages) }
    requires opened { host.old.opened ≡ true }
    requires running { (S.state host.old.store).stopped ≡ false }
    requires letters { (l : Letter) (rest : List Letter) → IsPicked between.old.messages (target t) number l rest → IsHearable S.durable host.old l }
    ensures turned { IfOk result (HasTurned S.durable S.state S.may C.is_read C.next settling t number host.old host.new between.old between.new) }
    ensures plan { host.new.plan ≡ host.old.plan }
    ensures opened { host.new.opened ≡ true }
    ensures runs { IfOk result (λ said. Runs stop_store said (S.state host.old.store) (S.state host.new.store) (S.durable host.old.store) (S.durable host.new.store)) }
    ensures clock { IsReadOn C.is_read host.old.clock host.new.clock }
    ensures native { IfOk result (λ said. says stop_foreign said ≡ false) }
    ensures told { IfOk result TellsNoAttempt }
    ensures posts { IfOk result (λ said. IfOk said (λ did. TurnsPostInForm host.old.plan.targets host.old.memory host.new.memory did.posts)) }
    ensures once { IfOk result (λ said. IfOk said (TurnsOnce between.old between.new host.old.memory.member host.new.memory.member)) }
    ensures ends { (asked : Asked) → LettersGoWith asked between.old.messages → IfOk result (λ said. IfOk said (λ did. TurnsEndAsked asked host.old.memory host.new.memory did.posts)) }
    ensures unbegun { IfErr result (λ e. host.new ≡ host.old) }
{
    if between.count_to(target_id(t)) == 0 {
        return Ok(host.idle(settling));
    }
    let letter = between.take(target_id(t), number);
    let aggregation = between.number_for(&letter.message)?;
    Ok(host.hear(letter.from, letter.message, aggregation))
}

impl<S: Fuse, C: Clock> Stage<S, C> {
    // A turn of a target that runs.
    pub(crate) fn work(&mut self, t: usize, number: usize, settling: bool) -> Result<(), Memory>
        requires within { t < length self.old.targets.items }
        requires standing { length self.old.watch.lives ≡ length self.old.targets.items }
        requires few { length self.old.targets.items ≤ 256 }
        requires number { number < max 1 (count_to (target t) self.old.between.messages) }
        requires runs { slice_get self.old.watch.lives t ≡ Some Life.Running }
        requires able { (x : TargetOf S C) → slice_get self.old.targets.items t ≡ Some x → CanTurn S.durable S.state S.may (stage_now self.old) t number x }
        ensures worked { OnOk result (TargetWorked S.durable S.state S.may C.is_read C.next settling t number (stage_now self.old) (stage_now self.new)) }
        ensures broke { OnErr result (TargetBroke S.durable S.state S.may C.is_read C.next settling t number (stage_now self.old) self.new.targets.items) }
        ensures served { AreServed S.durable S.state C.is_read self.old.targets.items self.new.targets.items }
    {
        let before = self.targets[t].faults();
        let said = hear_or_idle(&mut self.targets[t], &mut self.between, t, number, settling)?;
        match said {
            Ok(did) => self.follow(target_id(t), did),
            Err(stop) => self.cut(t, before, stop),
        }
    }
}
