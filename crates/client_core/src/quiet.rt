// Moves of a client that just go to the next stage of an operation, made in place.
ghost use Rattle.std.specs.Prelude.{Bool, ◌≡◌, ◌<◌, false, not, is_some, IfSome, IsTrue};
ghost use Rattle.client_core.specs.Clients.{staged};
ghost use Rattle.world_base.specs.ClientTurns.{at_present, goes, moved, next_stage, question, run_moves};
ghost use Rattle.world_base.specs.declared.client.ClientPlan.{ClientPlan};
ghost use Rattle.world_base.specs.declared.client.ClientState.{ClientState};

use base_types::operation::{Act, Cond, Op, Ops};
use base_types::script::{Command, Skips};
use client_moves::moves::{command_at, op_at, skip_at};
use world_base::client::{ClientPlan, ClientState, Present, Stage};

// Whether an operation isn't asked anything at a stage.
fn asks_nothing(stage: Stage, op: &Op) -> bool
    ensures { result ≡ not (is_some (question stage op.now)) }
{
    match stage {
        Stage::Skip => true,
        Stage::Cond => matches!(op.cond, Cond::Free),
        Stage::Act => matches!(op.act, Act::Change(_)),
    }
}

// Whether a transaction just goes to the next stage: no turn is skipped, and nothing is asked.
fn is_run_quiet(present: &Present, ops: &Ops, skips: &Skips) -> bool
    ensures { IsTrue result → (p : ClientPlan) (c : ClientState) (snapshot : Bool) → c.skip ≡ 0
        → run_moves p c present.now ops.now skips.now snapshot present.now.stage ≡ goes (at_present (next_stage present.now.stage present.now) c) }
{
    match present.stage {
        Stage::Skip => skip_at(skips, present.op) == 0,
        Stage::Cond | Stage::Act => match op_at(ops, present.op) {
            None => false,
            Some(op) => asks_nothing(present.stage, op),
        },
    }
}

// Whether an attempt may go on at once: its client skips no turn, it waits for no message, and it isn't
// behind a 64th operation.
fn is_ready(state: &ClientState, present: &Present) -> bool
    ensures skips { IsTrue result → state.now.skip ≡ 0 }
    ensures waits { IsTrue result → present.now.waits ≡ false }
    ensures within { IsTrue result → present.now.op < 64 }
{
    state.skip == 0 && !present.waits && present.op < 64
}

/// Whether a client's next move surely just goes to the next stage of an operation.
pub(crate) fn is_quiet(plan: &ClientPlan, state: &ClientState) -> bool
    ensures within { IsTrue result → IfSome state.now.present (λ a. a.op < 64) }
    ensures quiet { IsTrue result → goes (staged state.now) ≡ moved plan.now state.now }
{
    let Some(present) = &state.present else {
        return false;
    };
    let Some(Command::Run { ops, skips, .. }) = command_at(plan, state) else {
        return false;
    };
    if !is_ready(state, present) {
        return false;
    }
    is_run_quiet(present, ops, skips)
}

// An attempt goes to the next stage.
fn goes_to_next(present: &mut Present)
    requires { present.old.op < 64 }
    ensures { present.new ≡ next_stage present.old.stage present.old }
{
    match present.stage {
        Stage::Skip => present.stage = Stage::Cond,
        Stage::Cond => {
            present.stage = Stage::Act;
            present.group = 0;
            present.found = None;
        }
        Stage::Act => {
            present.op += 1;
            present.stage = Stage::Skip;
            present.group = 0;
            present.found = None;
        }
    }
}

/// A client goes to the next stage of its operation.
pub(crate) fn stage_on(state: &mut ClientState)
    requires { IfSome state.old.present (λ a. a.op < 64) }
    ensures { state.new ≡ staged state.old }
{
    if let Some(present) = &mut state.present {
        goes_to_next(present);
    }
}
