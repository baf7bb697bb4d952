// What a read meets in what a target keeps.
ghost use Rattle.std.specs.Prelude.{◌≡◌, Contains, Decides, IfOk};
ghost use Rattle.base_types.specs.declared.outcome.Outcome.TheVariants as outcome;
ghost use Rattle.base_types.specs.Operations.{read_path};
ghost use Rattle.base_messages.specs.declared.message.Reply.TheVariants as reply;
ghost use Rattle.replay_base.specs.Heard.{CanRead};
ghost use Rattle.replay_fetch.specs.declared.meets.Ending.TheVariants as ending;
ghost use Rattle.world_base.specs.Reads.{fetch_cause, later_of, later_unless};
ghost use Rattle.replay_fetch.specs.Met.{IsMet, MeetsAttempt};

use crate::later::{aggregated_above, is_past, later_of};
use base_messages::message::Reply;
use base_types::epoch::{Epoch, TargetId};
use base_types::id::AttemptId;
use base_types::items::Memory;
use base_types::outcome::{Cause, Outcome};
use base_types::shown::Shown;
use daos_model::durable::Durable;
use replay_base::entries::other_leader;
use std::alloc::Global;
use vos_contents::rows::first_blocking;
use vos_scan::reads::answer_below;
use vos_stamp::checks::check_read;
use world_base::request::FetchRequest;
use world_base::target::TargetPlan;

/// What a read ends with: a reply; or it waits for what becomes of an attempt that another target leads.
#[derive(Drop)]
pub enum Ending {
    Replies(Reply),
    Parks(AttemptId, TargetId),
}

/// What a read meets: a decided attempt, which is settled first; its ending; or nothing that it could
/// end with.
#[derive(Drop)]
pub enum Met {
    Settles(AttemptId),
    Ends(Ending),
    Stuck,
}

// A later write that refuses a read, if there is one.
fn later_unless(
    plan: TargetPlan,
    request: &FetchRequest,
    epoch: Epoch,
    durable: &Durable,
) -> Result<Option<Shown>, Memory>
    ensures { IfOk result (λ later. later ≡ later_unless request.now.snapshot (later_of plan request.now.first epoch (read_path request.now.read) durable.now)) }
{
    if request.snapshot {
        return Ok(None);
    }
    later_of(plan, request.first, epoch, request.read.path(), durable)
}

// Why a read is refused, if it is.
fn fetch_cause(
    plan: TargetPlan,
    request: &FetchRequest,
    epoch: Epoch,
    durable: &Durable,
) -> Result<Option<Cause>, Memory>
    ensures { IfOk result (λ cause. cause ≡ fetch_cause plan request.now epoch durable.now) }
{
    let aggregated = aggregated_above(durable, request.read.path(), epoch);
    let later = later_unless(plan, request, epoch, durable)?;
    check_read(epoch, aggregated, plan.me, later)
}

// The attempt is to restart.
fn restarts(cause: Cause) -> Ending
    ensures { result ≡ ending.Replies (reply.Outcome (outcome.Restart cause)) }
{
    Ending::Replies(Reply::Outcome(Outcome::Restart(cause)))
}

// Whether an attempt is among others.
fn is_one(attempts: &[AttemptId], attempt: AttemptId) -> bool
    ensures { Decides result (Contains attempts.now attempt) }
{
    attempts.contains(&attempt)
}

// What a read meets where this attempt stands in its way.
fn meet_attempt(
    plan: TargetPlan,
    durable: &Durable,
    decided: &[AttemptId],
    attempt: AttemptId,
) -> Met
    ensures { MeetsAttempt plan durable.now decided.now attempt result }
{
    if is_one(decided, attempt) {
        return Met::Settles(attempt);
    }
    match other_leader(plan, durable, attempt) {
        Some(leader) => Met::Ends(Ending::Parks(attempt, leader)),
        None => Met::Ends(restarts(Cause::Unresolved { by: attempt })),
    }
}

/// What a read meets at an epoch, while these decided attempts aren't settled.
#[tactic(auto, unfolding(vos_store::specs::Answers::fetched))]
pub fn meet(
    alloc: Global,
    plan: TargetPlan,
    request: &FetchRequest,
    epoch: Epoch,
    durable: &Durable,
    decided: &[AttemptId],
) -> Result<Met, Memory>
    requires { CanRead plan durable.now decided.now }
    ensures { IfOk result (IsMet plan request.now epoch durable.now decided.now) }
{
    if let Some(cause) = fetch_cause(plan, request, epoch, durable)? {
        return Ok(Met::Ends(restarts(cause)));
    }
    let path = request.read.path();
    if is_past(durable, path.cont, epoch) {
        return Ok(Met::Stuck);
    }
    let rows = durable.versions.as_slice();
    let Some(version) = first_blocking(rows, path, epoch) else {
        let answer = answer_below(alloc, rows, &request.read, epoch)?;
        return Ok(Met::Ends(Ending::Replies(Reply::Answer(answer))));
    };
    Ok(meet_attempt(plan, durable, decided, version.by))
}
