// How attempts begin and end.
ghost use Rattle.std.specs.Prelude.{◌≡◌, ◌<◌, ◌-◌, ◌^◌, Some};
ghost use Rattle.std.specs.Option.{option_copied};
ghost use Rattle.daos_model.specs.Attempts.{is_restart, snapshot_of_command};
ghost use Rattle.client_moves.specs.Moves.{IsAt, move_of};
ghost use Rattle.world_base.specs.ClientTurns.{after_end, begins, begun, ends, first_epoch, known_epoch, next_command, next_place};

use crate::step::{Move, at_present, attempt_id};
use base_types::epoch::Epoch;
use base_types::items::Items;
use base_types::key::Key;
use base_types::outcome::Outcome;
use base_types::report::{Attempt, Line};
use base_types::script::Command;
use std::alloc::Global;
use world_base::client::{ClientPlan, ClientState, KnownSnaps, Present, Stage};

// A new attempt: nothing of it is done.
pub(crate) fn begun(
    alloc: Global,
    attempt: u8,
    first: Option<Epoch>,
    epoch: Option<Epoch>,
) -> Present
    ensures { result ≡ begun attempt first epoch }
{
    Present {
        attempt,
        first,
        epoch,
        op: 0,
        stage: Stage::Skip,
        group: 0,
        found: None,
        conds: Items::new(alloc),
        gots: Items::new(alloc),
        waits: false,
    }
}

// The epoch of the snapshot of this name, if the client may read it.
fn known_epoch(known: &KnownSnaps, name: &Key) -> Option<Epoch>
    ensures { result ≡ known_epoch known.now name.now }
{
    let snap = known.as_slice().iter().find(|snap| name.same(&snap.name))?;
    Some(snap.epoch)
}

// The epoch with which an attempt begins: a snapshot read has that of its snapshot.
fn first_epoch(known: &KnownSnaps, snapshot: Option<&Key>) -> Option<Epoch>
    ensures { result ≡ first_epoch known.now (option_copied snapshot.entry) }
{
    known_epoch(known, snapshot?)
}

// The snapshot at which a command reads.
fn snapshot_of(command: &Command) -> Option<&Key>
    ensures { option_copied result ≡ snapshot_of_command command.now }
{
    match command {
        Command::Run { snapshot, .. } => snapshot.as_ref(),
        _ => None,
    }
}

// The command is over.
fn next_command(mut state: ClientState) -> ClientState
    requires command { state.command < 100000 }
    requires place { state.place < 2 ^ 64 - 1 }
    ensures { result ≡ next_command state }
{
    state.place += 1;
    state.command += 1;
    state.present = None;
    state
}

// A command without a number is over.
pub(crate) fn next_place(mut state: ClientState) -> ClientState
    requires { state.place < 2 ^ 64 - 1 }
    ensures { result ≡ next_place state }
{
    state.place += 1;
    state
}

// Whether an attempt is told to restart.
fn is_restart(how: &Outcome) -> bool
    ensures { result ≡ is_restart how.now }
{
    matches!(how, Outcome::Restart(_))
}

// The client when an attempt is over: at the next one of its command, where it is told to restart and
// one is left, or else behind the command.
fn after_end(
    alloc: Global,
    plan: &ClientPlan,
    command: &Command,
    state: ClientState,
    present: &Present,
    how: &Outcome,
) -> ClientState
    requires { IsAt plan.now.commands state.place state.command command.now }
    ensures { result ≡ after_end plan.now state (Some command.now) present.now how.now }
{
    let next = u16::from(present.attempt) + 1;
    if is_restart(how) && next < u16::from(plan.attempts) {
        let epoch = first_epoch(&state.known, snapshot_of(command));
        at_present(begun(alloc, next as u8, present.first, epoch), state)
    } else {
        next_command(state)
    }
}

/// An attempt ends, with its line.
pub fn ends(
    alloc: Global,
    plan: &ClientPlan,
    command: &Command,
    state: ClientState,
    present: Present,
    how: Outcome,
) -> Move
    requires { IsAt plan.now.commands state.place state.command command.now }
    ensures { move_of result ≡ ends plan.now state present how }
{
    let id = attempt_id(plan, &state, &present);
    let state = after_end(alloc, plan, command, state, &present, &how);
    let line = Line::Try(Attempt {
        id,
        epoch: present.epoch,
        conds: present.conds,
        gots: present.gots,
        outcome: how,
    });
    Move {
        post: None,
        line: Some(line),
        over: false,
        state,
    }
}

// The first attempt of a command begins; a read at a snapshot that the client doesn't know ends at
// once.
pub(crate) fn begins(
    alloc: Global,
    plan: &ClientPlan,
    command: &Command,
    state: ClientState,
) -> Move
    requires { IsAt plan.now.commands state.place state.command command.now }
    ensures { move_of result ≡ begins plan.now state (snapshot_of_command command.now) }
{
    let snapshot = snapshot_of(command);
    let epoch = first_epoch(&state.known, snapshot);
    let first = begun(alloc, 0, None, epoch);
    if snapshot.is_some() && epoch.is_none() {
        return ends(alloc, plan, command, state, first, Outcome::NoSnapshot);
    }
    Move::goes(at_present(first, state))
}
