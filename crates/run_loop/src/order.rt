// The order of turns.
ghost use Rattle.std.specs.Prelude.{◌≡◌, ◌≤◌, ◌<◌, ℕ, Bool, List, max, length, IfErr, IfOk, OnErr, OnOk};
ghost use Rattle.base_types.specs.declared.script.StopDecl.{StopDecl};
ghost use Rattle.daos_model.specs.declared.durable.Durable.{Durable};
ghost use Rattle.daos_model.specs.Opening.{Opening};
ghost use Rattle.run_base.specs.Picks.{after_pick, count_to, pick};
ghost use Rattle.run_stage.specs.Below.{AllBeginInTurn, AllCanReopen, AllTellInOrder, AnswersGoOn, AreAccounted, AreDrawn, AreServed, Breaks, CanGo, EndsGoOn, GoesOn, HasRunWith, IsActor, IsUp, RunBegins, Shows, TellInTurn, all_from_draw, all_rounds, heard_in, in_order, left_of, round_of, turn_of};
ghost use Rattle.run_stage.specs.world_ended.Clients.{AllEndWell};
ghost use Rattle.run_stage.specs.world_letters.kinds.Fitting.{AllAnswersFit};
ghost use Rattle.run_stage.specs.Now.{stage_now};
ghost use Rattle.vos_store.specs.Calls.{State};
ghost use Rattle.world_base.specs.declared.world.World.{World};
ghost use Rattle.world_base.specs.Events.{Rules};

use base_messages::actor::ActorId;
use base_outside::clock::Clock;
use base_outside::gate::Gate;
use base_random::draw::drawn;
use base_types::items::Memory;
use base_types::report::Lines;
pub use run_stage::stage::{Stage, Target, TargetNew};
use run_watch::watch::Watch;
use std::alloc::Global;
use std::sync::Wait;
use vos_store::store::Fuse;

// Of how many messages an actor hears one in its next turn.
fn heard_by<S: Fuse, C: Clock>(stage: &Stage<S, C>, actor: ActorId) -> usize
    requires actor { IsActor (length stage.now.clients.items) (length stage.now.targets.items) actor }
    requires standing { length stage.now.watch.lives ≡ length stage.now.targets.items }
    requires few_clients { length stage.now.clients.items ≤ 65535 }
    requires few_targets { length stage.now.targets.items ≤ 255 }
    ensures heard { (r : Rules) (found : ℕ → Durable) (w : World) → Shows S.durable S.state r found (stage_now stage.now) w → result ≡ heard_in w actor }
    ensures few { result ≤ count_to actor stage.now.between.messages }
{
    let number = usize::from(actor.number);
    if actor.client {
        stage.heard_by_client(number)
    } else {
        stage.heard_by_target(number)
    }
}

// A turn of an actor, which hears the message of this number if it hears one.
fn turn<S: Fuse, C: Clock>(
    stage: &mut Stage<S, C>,
    actor: ActorId,
    message: usize,
    settling: bool,
) -> Result<(), Memory>
    requires going { CanGo S.durable S.state S.may (stage_now stage.old) }
    requires actor { IsActor (length stage.old.clients.items) (length stage.old.targets.items) actor }
    requires up { IsUp stage.old.watch.lives actor }
    requires few_clients { length stage.old.clients.items ≤ 65535 }
    requires message { message < max 1 (count_to actor stage.old.between.messages) }
    ensures goes { OnOk result (GoesOn S.durable S.state S.may C.is_read C.next (turn_of settling actor message) (stage_now stage.old) (stage_now stage.new)) }
    ensures broke { OnErr result (Breaks S.durable S.state S.may (stage_now stage.old) stage.new.targets.items) }
    ensures served { AreServed S.durable S.state C.is_read stage.old.targets.items stage.new.targets.items }
{
    let number = usize::from(actor.number);
    if actor.client {
        stage.client_turn(number, message)
    } else {
        stage.target_turn(number, message, settling)
    }
}

// A round: every client in order and then every target in order has one turn, if it has something to
// do, and hears the message that was sent to it first. The gate is told the round's number.
fn round<S: Fuse, C: Clock, G: Gate>(
    stage: &mut Stage<S, C>,
    gate: &G,
    number: u64,
    settling: bool,
) -> Result<(), Memory>
    requires going { CanGo S.durable S.state S.may (stage_now stage.old) }
    requires few_clients { length stage.old.clients.items ≤ 65535 }
    requires few_targets { length stage.old.targets.items ≤ 255 }
    ensures goes { OnOk result (GoesOn S.durable S.state S.may C.is_read C.next (round_of settling) (stage_now stage.old) (stage_now stage.new)) }
    ensures broke { OnErr result (Breaks S.durable S.state S.may (stage_now stage.old) stage.new.targets.items) }
    ensures served { AreServed S.durable S.state C.is_read stage.old.targets.items stage.new.targets.items }
{
    for n in 0..stage.clients.len() {
        if stage.is_client_due(n) {
            gate.pass(true, n as u16, number);
            stage.client_turn(n, 0)?;
        }
    }
    for t in 0..stage.targets.len() {
        if stage.is_target_due(t, settling) {
            gate.pass(false, t as u16, number);
            stage.target_turn(t, 0, settling)?;
        }
    }
    Ok(())
}

// Rounds, until no actor has anything to do. The number is that of the next round.
fn go_round<R: Wait, S: Fuse, C: Clock, G: Gate>(
    rt: &R,
    alloc: Global,
    stage: &mut Stage<S, C>,
    gate: &G,
    number: &mut u64,
    settling: bool,
) -> Result<(), Memory>
    requires going { CanGo S.durable S.state S.may (stage_now stage.old) }
    requires few_clients { length stage.old.clients.items ≤ 65535 }
    requires few_targets { length stage.old.targets.items ≤ 255 }
    ensures goes { OnOk result (GoesOn S.durable S.state S.may C.is_read C.next (all_rounds settling) (stage_now stage.old) (stage_now stage.new)) }
    ensures broke { OnErr result (Breaks S.durable S.state S.may (stage_now stage.old) stage.new.targets.items) }
    ensures served { AreServed S.durable S.state C.is_read stage.old.targets.items stage.new.targets.items }
{
    for _ in rt.forever() {
        if stage.due(alloc, settling)?.is_empty() {
            return Ok(());
        }
        round(stage, gate, *number, settling)?;
        *number = number.wrapping_add(1);
    }
    unreachable!()
}

// A number below so many, by the next one drawn; where there is none, none is drawn.
fn pick(x: &mut u64, many: usize) -> usize
    ensures number { result ≡ pick x.old many }
    ensures last { x.new ≡ after_pick x.old many }
    ensures below { result < max 1 many }
{
    if many == 0 {
        return 0;
    }
    *x = drawn(*x);
    (*x % many as u64) as usize
}

// Turns of drawn actors, until none has anything to do. The number is that of the next turn.
fn go_drawn<R: Wait, S: Fuse, C: Clock, G: Gate>(
    rt: &R,
    alloc: Global,
    x: &mut u64,
    stage: &mut Stage<S, C>,
    gate: &G,
    number: &mut u64,
    settling: bool,
) -> Result<(), Memory>
    requires going { CanGo S.durable S.state S.may (stage_now stage.old) }
    requires few_clients { length stage.old.clients.items ≤ 65535 }
    requires few_targets { length stage.old.targets.items ≤ 255 }
    ensures goes { OnOk result (GoesOn S.durable S.state S.may C.is_read C.next (all_from_draw settling x.old x.new) (stage_now stage.old) (stage_now stage.new)) }
    ensures broke { OnErr result (Breaks S.durable S.state S.may (stage_now stage.old) stage.new.targets.items) }
    ensures served { AreServed S.durable S.state C.is_read stage.old.targets.items stage.new.targets.items }
{
    for _ in rt.forever() {
        let due = stage.due(alloc, settling)?;
        if due.is_empty() {
            return Ok(());
        }
        let actor = due[pick(x, due.len())];
        let message = pick(x, heard_by(stage, actor));
        gate.pass(actor.client, actor.number, *number);
        turn(stage, actor, message, settling)?;
        *number = number.wrapping_add(1);
    }
    unreachable!()
}

// Runs the actors in an order until none has anything to do, and then, while they settle, until there
// is nothing to do in that.
fn go<R: Wait, S: Fuse, C: Clock, G: Gate>(
    rt: &R,
    alloc: Global,
    order: u64,
    stage: &mut Stage<S, C>,
    gate: &G,
) -> Result<(), Memory>
    requires going { CanGo S.durable S.state S.may (stage_now stage.old) }
    requires few_clients { length stage.old.clients.items ≤ 65535 }
    requires few_targets { length stage.old.targets.items ≤ 255 }
    ensures goes { OnOk result (GoesOn S.durable S.state S.may C.is_read C.next (in_order order) (stage_now stage.old) (stage_now stage.new)) }
    ensures broke { OnErr result (Breaks S.durable S.state S.may (stage_now stage.old) stage.new.targets.items) }
    ensures served { AreServed S.durable S.state C.is_read stage.old.targets.items stage.new.targets.items }
{
    let mut number = 0;
    if order == 0 {
        go_round(rt, alloc, stage, gate, &mut number, false)?;
        return go_round(rt, alloc, stage, gate, &mut number, true);
    }
    let mut x = order;
    go_drawn(rt, alloc, &mut x, stage, gate, &mut number, false)?;
    go_drawn(rt, alloc, &mut x, stage, gate, &mut number, true)
}

/// Clients and targets run until none has anything to do: the targets, how they stand, and the lines of
/// the report. Order 0 goes round: each client and then each target has a turn, if it has something to
/// do, and hears the message that was sent to it first. Any other order is the number before the first
/// one drawn: one draw says whose turn it is, of those that have something to do, and where it hears a
/// message, a second one says which of those in flight to it.
pub fn run_in_order<R: Wait, S: Fuse, C: Clock, G: Gate>(
    rt: &R,
    alloc: Global,
    order: u64,
    mut stage: Stage<S, C>,
    gate: &G,
) -> (Vec<Target<S, C>>, Watch, Result<Lines, Memory>)
    requires going { CanGo S.durable S.state S.may (stage_now stage) }
    requires few_clients { length stage.clients.items ≤ 65535 }
    ensures run { (r : Rules) (w : World) (o : Opening) → RunBegins r o w → AreDrawn w → ((found : ℕ → Durable) → Shows S.durable S.state r found (stage_now stage) w)
        → IfOk result.2 (λ lines. HasRunWith S.durable S.state C.is_read C.next S.may r order w (stage_now stage) (left_of result.0.items result.1 lines)) }
    ensures broke { IfErr result.2 (λ error. Breaks S.durable S.state S.may (stage_now stage) result.0.items) }
    ensures served { AreServed S.durable S.state C.is_read stage.targets.items result.0.items }
    ensures accounts { (h : ℕ → State) (stops : List StopDecl) → AreAccounted S.durable S.state h stops (stage_now stage)
        → IfOk result.2 (λ lines. AreAccounted S.durable S.state h stops (left_of result.0.items result.1 lines)) }
    ensures reopens { IfOk result.2 (λ lines. AllCanReopen S.durable S.state S.may result.0.items) }
    ensures in_turn { (r : Rules) → TellInTurn r (stage_now stage) → IfOk result.2 (AllBeginInTurn r.attempts r.script) }
    ensures kinds { (r : Rules) → AnswersGoOn r (stage_now stage) → IfOk result.2 (AllAnswersFit r.script) }
    ensures ends { (r : Rules) → EndsGoOn r (stage_now stage) → IfOk result.2 (AllEndWell r.script) }
    ensures in_order { (r : Rules) → EndsGoOn r (stage_now stage) → IfOk result.2 (AllTellInOrder r.script) }
{
    let went = go(rt, alloc, order, &mut stage, gate);
    let Stage {
        alloc: _alloc,
        clients: _clients,
        targets,
        watch,
        between,
    } = stage;
    let lines = between.into_lines();
    match went {
        Ok(()) => (targets, watch, Ok(lines)),
        Err(error) => (targets, watch, Err(error)),
    }
}
