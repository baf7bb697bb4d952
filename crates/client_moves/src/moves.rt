// A client's next move.
ghost use Rattle.std.specs.Prelude.{◌≡◌, ◌<◌, ◌-◌, ◌^◌, true, slice_get, IfOk, IfSome};
ghost use Rattle.std.specs.Option.{option_copied};
ghost use Rattle.base_types.specs.Scripts.{is_numbered};
ghost use Rattle.client_moves.specs.Moves.{CommandFits, FirstFits, IsAt, IsInPlace, OpFits, OpsFit, PlanFits, move_of};
ghost use Rattle.world_base.specs.ClientTurns.{asks_or_goes, attempt_moves, command_at, command_moves, commits, moved, next_op, next_stage, op_moves, question, run_moves, skip_at, waits};
ghost use Rattle.world_base.specs.declared.client.ClientPlan.{ClientPlan};
ghost use Rattle.world_base.specs.declared.client.Stage.TheVariants as stage;

use crate::asks::{asks_read, minor_writes, path_leader, question};
use crate::ends::{begins, ends, next_place};
use crate::step::{Move, at_present, attempt_id, taken};
use base_messages::actor::ActorId;
use base_messages::message::{Message, Post};
use base_types::epoch::Epoch;
use base_types::id::{AttemptId, ContId};
use base_types::items::Memory;
use base_types::key::Key;
use base_types::operation::{MinorWrites, Op, Ops};
use base_types::outcome::Outcome;
use base_types::script::{Command, Skips};
use std::alloc::Global;
use world_base::client::{ClientPlan, ClientState, Present, Stage};

/// Whether a client waits for a message.
pub fn waits(state: &ClientState) -> bool
    ensures { result ≡ waits state.now }
{
    match &state.present {
        None => false,
        Some(present) => present.waits,
    }
}

/// The command that a client is at.
pub fn command_at<'a>(plan: &'a ClientPlan, state: &ClientState) -> Option<&'a Command>
    ensures exact { option_copied result ≡ command_at plan.now state.now }
    ensures within { IfSome result (λ command. state.now.place < 2 ^ 64 - 1) }
{
    plan.commands.as_slice().get(state.place as usize)
}

// Behind the skip of an operation its condition comes, and behind that of the end the end.
fn past_skip(mut present: Present) -> Present
    ensures { result ≡ next_stage stage.Skip present }
{
    present.stage = Stage::Cond;
    present
}

/// Behind its condition the operation itself comes.
pub fn past_cond(mut present: Present) -> Present
    ensures { result ≡ next_stage stage.Cond present }
{
    present.stage = Stage::Act;
    present.group = 0;
    present.found = None;
    present
}

/// The operation is over.
pub fn next_op(mut present: Present) -> Present
    requires { present.op < 64 }
    ensures { result ≡ next_op present }
{
    present.op += 1;
    present.stage = Stage::Skip;
    present.group = 0;
    present.found = None;
    present
}

// The next stage of an operation, which isn't asked anything at this one.
fn next_stage(present: Present) -> Present
    requires { present.op < 64 }
    ensures { result ≡ next_stage present.stage present }
{
    match present.stage {
        Stage::Skip => past_skip(present),
        Stage::Cond => past_cond(present),
        Stage::Act => next_op(present),
    }
}

/// The turns to skip before an operation, or before the end.
pub fn skip_at(turns: &Skips, op: u8) -> u64
    ensures { result ≡ skip_at turns.now op }
{
    turns.as_slice().get(usize::from(op)).copied().unwrap_or(0)
}

// The end of a transaction: without writes it is committed; else its writes go to their leader.
fn commits(
    alloc: Global,
    plan: &ClientPlan,
    command: &Command,
    state: ClientState,
    present: Present,
    writes: MinorWrites,
) -> Move
    requires at { IsAt plan.now.commands state.place state.command command.now }
    requires fits { FirstFits plan.now.targets writes }
    ensures { move_of result ≡ commits plan.now state present writes }
{
    let Some(first) = writes.as_slice().first() else {
        return ends(alloc, plan, command, state, present, Outcome::Committed);
    };
    let leader = path_leader(first.write.path(), plan.targets);
    let message = Message::Commit {
        attempt: attempt_id(plan, &state, &present),
        ep: present.epoch,
        first: present.first,
        tracker: state.tracker,
        writes,
    };
    Move::asks(leader, message, present, state)
}

// An operation asks what it asks at this stage, or goes on.
fn asks_or_goes(
    plan: &ClientPlan,
    state: ClientState,
    present: Present,
    snapshot: bool,
    op: &Op,
) -> Result<Move, Memory>
    requires fits { OpFits plan.now.targets op.now }
    requires within { present.op < 64 }
    ensures { IfOk result (λ m. move_of m ≡ asks_or_goes plan.now state present snapshot (question present.stage op.now)) }
{
    match question(present.stage, op)? {
        None => Ok(Move::goes(at_present(next_stage(present), state))),
        Some(read) => Ok(asks_read(plan, state, present, snapshot, read)),
    }
}

/// The operation of this number.
pub fn op_at(ops: &Ops, number: u8) -> Option<&Op>
    ensures { option_copied result ≡ slice_get ops.now number }
{
    ops.as_slice().get(usize::from(number))
}

// Behind its skip an operation asks; behind the last there is the end.
fn op_moves(
    alloc: Global,
    plan: &ClientPlan,
    command: &Command,
    state: ClientState,
    present: Present,
    ops: &Ops,
    snapshot: bool,
) -> Result<Move, Memory>
    requires at { IsAt plan.now.commands state.place state.command command.now }
    requires fits { OpsFit plan.now.targets ops.now }
    ensures { IfOk result (λ m. move_of m ≡ op_moves plan.now state present ops.now snapshot (slice_get ops.now present.op)) }
{
    match op_at(ops, present.op) {
        None => {
            let writes = minor_writes(alloc, ops.as_slice())?;
            Ok(commits(alloc, plan, command, state, present, writes))
        }
        Some(op) => asks_or_goes(plan, state, present, snapshot, op),
    }
}

// A transaction goes on: its turns are skipped before each operation and before the end.
fn run_moves(
    alloc: Global,
    plan: &ClientPlan,
    command: &Command,
    state: ClientState,
    present: Present,
    ops: &Ops,
    turns: &Skips,
    snapshot: bool,
) -> Result<Move, Memory>
    requires at { IsAt plan.now.commands state.place state.command command.now }
    requires fits { OpsFit plan.now.targets ops.now }
    ensures { IfOk result (λ m. move_of m ≡ run_moves plan.now state present ops.now turns.now snapshot present.stage) }
{
    match present.stage {
        Stage::Skip => {
            let turns = skip_at(turns, present.op);
            Ok(Move::skips(turns, at_present(past_skip(present), state)))
        }
        Stage::Cond | Stage::Act => op_moves(alloc, plan, command, state, present, ops, snapshot),
    }
}

// The message that asks target 0 for a snapshot.
fn snap_message(
    attempt: AttemptId,
    cont: ContId,
    name: &Key,
    tracker: Epoch,
) -> Result<Message, Memory>
    ensures { IfOk result (λ m. m ≡ Message.Snap attempt cont name.now tracker) }
{
    Ok(Message::Snap {
        attempt,
        cont,
        name: name.copy()?,
        tracker,
    })
}

// An attempt goes on: a snapshot and an aggregation are asked of target 0.
fn attempt_moves(
    alloc: Global,
    plan: &ClientPlan,
    command: &Command,
    state: ClientState,
    present: Present,
) -> Result<Move, Memory>
    requires at { IsAt plan.now.commands state.place state.command command.now }
    requires numbered { is_numbered command.now ≡ true }
    requires fits { CommandFits plan.now.targets command.now }
    ensures { IfOk result (λ m. move_of m ≡ attempt_moves plan.now state present command.now) }
{
    let attempt = attempt_id(plan, &state, &present);
    match command {
        Command::Run {
            ops,
            skips,
            snapshot,
        } => run_moves(
            alloc,
            plan,
            command,
            state,
            present,
            ops,
            skips,
            snapshot.is_some(),
        ),
        Command::Snap { name, cont } => {
            let message = snap_message(attempt, *cont, name, state.tracker)?;
            Ok(Move::asks(0, message, present, state))
        }
        Command::Aggregate { cont } => {
            let message = Message::Prune {
                attempt,
                cont: *cont,
                tracker: Some(state.tracker),
                epoch: None,
            };
            Ok(Move::asks(0, message, present, state))
        }
        Command::Tell { .. } | Command::Skip { .. } => Ok(Move::rests(state)),
    }
}

// Another client is told the tracker.
fn tells(client: u16, state: ClientState) -> Move
    requires { state.place < 2 ^ 64 - 1 }
    ensures { (p : ClientPlan) → move_of result ≡ command_moves p state (Command.Tell client) }
{
    let message = Message::Tell {
        tracker: state.tracker,
    };
    let to = ActorId {
        client: true,
        number: client,
    };
    Move {
        post: Some(Post { to, message }),
        line: None,
        over: false,
        state: next_place(state),
    }
}

// A command begins: another client is told the tracker, turns are skipped, or there is a first
// attempt.
fn command_moves(alloc: Global, plan: &ClientPlan, command: &Command, state: ClientState) -> Move
    requires before { state.place < 2 ^ 64 - 1 }
    requires at { is_numbered command.now ≡ true → IsAt plan.now.commands state.place state.command command.now }
    ensures { move_of result ≡ command_moves plan.now state command.now }
{
    match command {
        Command::Tell { client } => tells(*client, state),
        Command::Skip { turns } => Move::skips(u64::from(*turns), next_place(state)),
        Command::Run { .. } | Command::Snap { .. } | Command::Aggregate { .. } => {
            begins(alloc, plan, command, state)
        }
    }
}

/// The next move of a client that goes on; one that waits rests.
pub fn moved(alloc: Global, plan: &ClientPlan, state: ClientState) -> Result<Move, Memory>
    requires fits { PlanFits plan.now }
    requires place { IsInPlace plan.now state }
    ensures { IfOk result (λ m. move_of m ≡ moved plan.now state) }
{
    if waits(&state) {
        return Ok(Move::rests(state));
    }
    let Some(command) = command_at(plan, &state) else {
        return Ok(Move::rests(state));
    };
    let (present, state) = taken(state);
    match present {
        None => Ok(command_moves(alloc, plan, command, state)),
        Some(present) => attempt_moves(alloc, plan, command, state, present),
    }
}
