// What a client hears, and what it does then.
ghost use Rattle.std.specs.Prelude.{◌≡◌, ◌<◌, ◌+◌, nat_lt, Some, IfOk};
ghost use Rattle.std.specs.Option.{option_copied};
ghost use Rattle.daos_model.specs.Accesses.{op_path};
ghost use Rattle.daos_model.specs.Conditions.{holds_where};
ghost use Rattle.daos_model.specs.Order.{told_by};
ghost use Rattle.client_core.specs.Clients.{CommandFits, IsAt, IsInPlace, OpFits, PlanFits, is_asked_again, move_of};
ghost use Rattle.world_base.specs.ClientTurns.{about, answered, condition_told, ended, group_count, group_told, greatest, heard, heard_at, hears_epochs, is_about, is_yes, knows, knows_epoch, op_of, op_told, read_told, replied, request_of, reset_by, snaps_known, told_at, told_by_message, told_by_reply, told_by_some};

use base_messages::message::{Message, Reply};
use base_types::answer::Answer;
use base_types::epoch::{Epoch, TargetId};
use base_types::id::AttemptId;
use base_types::items::Memory;
use base_types::operation::{Cond, Op};
use base_types::outcome::{Cause, Outcome};
use base_types::script::Command;
use client_moves::asks::group_count;
use client_moves::copies::copy_present;
use client_moves::ends::ends;
use client_moves::joins::joined;
use client_moves::moves::{command_at, next_op, op_at, past_cond};
use client_moves::step::{Move, at_present, attempt_id};
use daos_model::durable::is_same_attempt;
use std::alloc::Global;
use world_base::client::{ClientPlan, ClientState, KnownSnap, KnownSnaps, Present, Stage};

// The epoch that an outcome tells of.
fn told_by(how: &Outcome) -> Option<Epoch>
    ensures { told_by_some result ≡ told_by how.now }
{
    match how {
        Outcome::Restart(
            Cause::ReadLater { epoch, .. }
            | Cause::WriteLater { epoch, .. }
            | Cause::Floor { epoch, .. },
        ) => Some(*epoch),
        _ => None,
    }
}

// The epoch that a reply tells of.
fn told_by_reply(reply: &Reply) -> Option<Epoch>
    ensures { told_by_some result ≡ told_by_reply reply.now }
{
    match reply {
        Reply::Answer(_) => None,
        Reply::Outcome(how) => told_by(how),
    }
}

// A tracker that is told of an epoch, if there is one.
#[tactic(auto, unfolding(world_base::specs::ClientTurns::greatest))]
fn raised(tracker: Epoch, told: Option<Epoch>) -> Epoch
    ensures { result.0 ≡ greatest tracker.0 (told_by_some told) }
{
    match told {
        None => tracker,
        Some(epoch) => Epoch(tracker.0.max(epoch.0)),
    }
}

// The tracker once a message was heard.
fn tracker_once(message: &Message, tracker: Epoch) -> Epoch
    ensures { result.0 ≡ greatest tracker.0 (told_by_message message.now) }
{
    match message {
        Message::Fetched { epoch, reply, .. } => {
            raised(raised(tracker, *epoch), told_by_reply(reply))
        }
        Message::Ended { ep, outcome, .. } => raised(raised(tracker, *ep), told_by(outcome)),
        Message::Tell { tracker: told } => raised(tracker, Some(*told)),
        _ => tracker,
    }
}

// The epoch of an attempt that hears of one.
fn knows_epoch(own: Option<Epoch>, told: Option<Epoch>) -> Option<Epoch>
    ensures { result ≡ knows_epoch own told }
{
    match own {
        None => told,
        Some(own) => Some(own),
    }
}

// An attempt whose answer has come hears of the epoch that was issued to it.
fn knows(told: Option<Epoch>, mut present: Present) -> Present
    ensures { result ≡ knows told present }
{
    if present.epoch.is_none() {
        present.first = knows_epoch(present.first, told);
    }
    present.epoch = knows_epoch(present.epoch, told);
    present.waits = false;
    present
}

// Whether there is what was asked for.
fn is_yes(answer: &Answer) -> bool
    ensures { result ≡ is_yes answer.now }
{
    matches!(answer, Answer::Yes)
}

// Whether a condition holds.
fn holds_where(there: bool, cond: Cond) -> bool
    ensures { result ≡ holds_where there cond }
{
    match cond {
        Cond::Free => true,
        Cond::Must => there,
        Cond::MustNot => !there,
    }
}

// A condition is answered: the operation goes on where it holds; else the attempt ends.
fn condition_told(
    alloc: Global,
    plan: &ClientPlan,
    command: &Command,
    state: ClientState,
    mut present: Present,
    cond: Cond,
    there: bool,
) -> Result<Move, Memory>
    requires { IsAt plan.now.commands state.place state.command command.now }
    ensures { IfOk result (λ m. move_of m ≡ condition_told plan.now state present cond there) }
{
    present.conds.push((present.op, there))?;
    if holds_where(there, cond) {
        Ok(Move::goes(at_present(past_cond(present), state)))
    } else {
        let how = Outcome::CondFailed { op: present.op };
        Ok(ends(alloc, plan, command, state, present, how))
    }
}

// A read is answered: its operation is over.
fn read_told(state: ClientState, mut present: Present, answer: Answer) -> Result<Move, Memory>
    requires { present.op < 64 }
    ensures { IfOk result (λ m. move_of m ≡ read_told state present answer) }
{
    present.gots.push((present.op, answer))?;
    Ok(Move::goes(at_present(next_op(present), state)))
}

// A question is answered.
fn told_at(
    alloc: Global,
    plan: &ClientPlan,
    command: &Command,
    state: ClientState,
    present: Present,
    cond: Cond,
    answer: Answer,
) -> Result<Move, Memory>
    requires at { IsAt plan.now.commands state.place state.command command.now }
    requires within { present.op < 64 }
    ensures { IfOk result (λ m. move_of m ≡ told_at plan.now state present cond present.stage answer) }
{
    match present.stage {
        Stage::Skip => Ok(Move::goes(at_present(present, state))),
        Stage::Cond => {
            let there = is_yes(&answer);
            condition_told(alloc, plan, command, state, present, cond, there)
        }
        Stage::Act => read_told(state, present, answer),
    }
}

// Whether there is a group behind the one of this number that is asked about an operation.
fn is_group_left(op: &Op, targets: u8, group: u8) -> bool
    requires { OpFits targets op.now }
    ensures { result ≡ nat_lt (group + 1) (group_count (op_path op.now).obj (op_path op.now).dkey targets) }
{
    u16::from(group) + 1 < u16::from(group_count(op.act.path(), targets))
}

// A group answers a question: the next group is asked, or the question is answered.
fn group_told(
    alloc: Global,
    plan: &ClientPlan,
    command: &Command,
    state: ClientState,
    mut present: Present,
    op: &Op,
    answer: Answer,
) -> Result<Move, Memory>
    requires at { IsAt plan.now.commands state.place state.command command.now }
    requires within { present.op < 64 }
    requires fits { OpFits plan.now.targets op.now }
    ensures { IfOk result (λ m. move_of m ≡ group_told plan.now state present op.now answer) }
{
    let answer = joined(alloc, &present.found, answer)?;
    if is_group_left(op, plan.targets, present.group) {
        present.group += 1;
        present.found = Some(answer);
        Ok(Move::goes(at_present(present, state)))
    } else {
        told_at(alloc, plan, command, state, present, op.cond, answer)
    }
}

// The operation of this number.
fn op_of(command: &Command, number: u8) -> Option<&Op>
    ensures { option_copied result ≡ op_of (Some command.now) number }
{
    match command {
        Command::Run { ops, .. } => op_at(ops, number),
        _ => None,
    }
}

// An attempt's read or condition is answered, or how the attempt ended.
fn replied(
    alloc: Global,
    plan: &ClientPlan,
    command: &Command,
    state: ClientState,
    present: Present,
    reply: Reply,
) -> Result<Move, Memory>
    requires at { IsAt plan.now.commands state.place state.command command.now }
    requires fits { CommandFits plan.now.targets command.now }
    ensures { IfOk result (λ m. move_of m ≡ replied plan.now state present reply) }
{
    match reply {
        Reply::Outcome(how) => Ok(ends(alloc, plan, command, state, present, how)),
        Reply::Answer(answer) => match op_of(command, present.op) {
            None => Ok(Move::goes(at_present(present, state))),
            Some(op) => group_told(alloc, plan, command, state, present, op, answer),
        },
    }
}

// A client knows the snapshot that it made.
fn snaps_known(
    command: &Command,
    told: Option<Epoch>,
    how: &Outcome,
    mut known: KnownSnaps,
) -> Result<KnownSnaps, Memory>
    ensures { IfOk result (λ after. after ≡ snaps_known (Some command.now) told how.now known) }
{
    if let (Command::Snap { name, .. }, Some(epoch), Outcome::Committed) = (command, told, how) {
        known.push(KnownSnap {
            name: name.copy()?,
            epoch,
        })?;
    }
    Ok(known)
}

// A target tells how an attempt ended.
fn ended(
    alloc: Global,
    plan: &ClientPlan,
    command: &Command,
    mut state: ClientState,
    present: Present,
    told: Option<Epoch>,
    how: Outcome,
) -> Result<Move, Memory>
    requires { IsAt plan.now.commands state.place state.command command.now }
    ensures { IfOk result (λ m. move_of m ≡ ended plan.now state present told how) }
{
    state.known = snaps_known(command, told, &how, state.known)?;
    Ok(ends(alloc, plan, command, state, present, how))
}

// Whether a client asks what became of a request that is lost.
fn is_asked_again(message: &Message) -> bool
    ensures { result ≡ is_asked_again message.now }
{
    matches!(message, Message::Commit { .. } | Message::Ask { .. })
}

// A request is lost at a target that stopped, or that is down.
fn reset(
    alloc: Global,
    plan: &ClientPlan,
    command: &Command,
    state: ClientState,
    present: Present,
    target: TargetId,
    down: bool,
    message: &Message,
) -> Move
    requires { IsAt plan.now.commands state.place state.command command.now }
    ensures { move_of result ≡ reset_by plan.now state present target down message.now }
{
    let by = attempt_id(plan, &state, &present);
    if down {
        return ends(
            alloc,
            plan,
            command,
            state,
            present,
            Outcome::Unknown { target },
        );
    }
    if is_asked_again(message) {
        return Move::asks(target, Message::Ask { attempt: by }, present, state);
    }
    let how = Outcome::Restart(Cause::Unresolved { by });
    ends(alloc, plan, command, state, present, how)
}

// The attempt whose request a message is.
fn request_of(message: &Message) -> Option<AttemptId>
    ensures { result ≡ request_of message.now }
{
    match message {
        Message::Fetch { attempt, .. }
        | Message::Commit { attempt, .. }
        | Message::Ask { attempt }
        | Message::Snap { attempt, .. }
        | Message::Prune { attempt, .. } => Some(*attempt),
        _ => None,
    }
}

// The attempt that a message to a client is about.
fn about(message: &Message) -> Option<AttemptId>
    ensures { result ≡ about message.now }
{
    match message {
        Message::Fetched { attempt, .. } | Message::Ended { attempt, .. } => Some(*attempt),
        Message::Reset { message, .. } => request_of(message.get()),
        _ => None,
    }
}

// Whether an attempt is the one that a message is about.
fn is_about(own: AttemptId, about: Option<AttemptId>) -> bool
    ensures { result ≡ is_about own about }
{
    match about {
        None => false,
        Some(other) => is_same_attempt(own, other),
    }
}

// What a client waits for has come.
fn answered(
    alloc: Global,
    plan: &ClientPlan,
    command: &Command,
    state: ClientState,
    mut present: Present,
    message: &Message,
) -> Result<Move, Memory>
    requires at { IsAt plan.now.commands state.place state.command command.now }
    requires fits { CommandFits plan.now.targets command.now }
    ensures { IfOk result (λ m. move_of m ≡ answered plan.now state present message.now) }
{
    match message {
        Message::Fetched { epoch, reply, .. } => {
            let reply = reply.copy()?;
            replied(alloc, plan, command, state, knows(*epoch, present), reply)
        }
        Message::Ended { ep, outcome, .. } => {
            let how = outcome.copy()?;
            ended(alloc, plan, command, state, knows(*ep, present), *ep, how)
        }
        Message::Reset {
            target,
            down,
            message,
        } => {
            present.waits = false;
            let request = message.get();
            Ok(reset(
                alloc, plan, command, state, present, *target, *down, request,
            ))
        }
        _ => Ok(Move::goes(state)),
    }
}

// A message of another attempt than the one that the client is at, or that it doesn't wait for,
// tells it epochs alone.
fn heard_at(
    alloc: Global,
    plan: &ClientPlan,
    command: &Command,
    state: ClientState,
    present: Present,
    message: &Message,
) -> Result<Move, Memory>
    requires at { IsAt plan.now.commands state.place state.command command.now }
    requires fits { CommandFits plan.now.targets command.now }
    ensures { IfOk result (λ m. move_of m ≡ heard_at plan.now state message.now (Some present)) }
{
    let own = attempt_id(plan, &state, &present);
    if present.waits && is_about(own, about(message)) {
        answered(alloc, plan, command, state, present, message)
    } else {
        Ok(Move::goes(state))
    }
}

// The client once it heard of a message's epochs.
fn hears_epochs(message: &Message, mut state: ClientState) -> ClientState
    ensures { result ≡ hears_epochs message.now state }
{
    state.tracker = tracker_once(message, state.tracker);
    state
}

/// A client hears a message.
pub(crate) fn heard(
    alloc: Global,
    plan: &ClientPlan,
    state: ClientState,
    message: &Message,
) -> Result<Move, Memory>
    requires fits { PlanFits plan.now }
    requires place { IsInPlace plan.now state }
    ensures { IfOk result (λ m. move_of m ≡ heard plan.now state message.now) }
{
    let state = hears_epochs(message, state);
    let Some(command) = command_at(plan, &state) else {
        return Ok(Move::goes(state));
    };
    match copy_present(alloc, &state.present)? {
        None => Ok(Move::goes(state)),
        Some(present) => heard_at(alloc, plan, command, state, present, message),
    }
}
