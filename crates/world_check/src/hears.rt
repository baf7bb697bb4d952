// A target hears a message.
ghost use Rattle.std.specs.Prelude.{◌≡◌, ◌<◌, None, IfOk, Decides};
ghost use Rattle.std.specs.List.{list_all};
ghost use Rattle.base_messages.specs.declared.message.Message.TheVariants as message;
ghost use Rattle.daos_model.specs.Durables.{is_version_in_form};
ghost use Rattle.daos_model.specs.Forms.{AreWritesInForm};
ghost use Rattle.replay_base.specs.Heard.{CanCommit, CanRead, CanTryAgain, is_timed, is_timed_ask};
ghost use Rattle.replay_verdict.specs.replay_fetch.Fetched.{FetchesSo};
ghost use Rattle.replay_verdict.specs.Tried.{fetch_in};
ghost use Rattle.replay_writes.specs.Committed.{CommitsSo, PreparesSo};
ghost use Rattle.world_check.specs.Turned.{HearsSo, commit_in, prepare_in};

use base_messages::actor::ActorId;
use base_messages::message::Message;
use base_types::entry::Verdict;
use base_types::id::AttemptId;
use base_types::items::Memory;
use base_types::outcome::Outcome;
use daos_model::durable::{Durable, Version};
use dtx_base::member::Parked;
use replay_base::entries::are_led_here;
use replay_base::told::is_left_if;
use replay_dtx::acks::hears_ack;
use replay_dtx::marks::{hears_mark, hears_marked};
use replay_dtx::queries::hears_query;
use replay_verdict::asks::fetch_in;
use replay_verdict::below::fetch::fetch::fetches_so;
use replay_verdict::verdict::hears_verdict;
use replay_writes::commit::commits_so;
use replay_writes::forms::{are_writes, can_commit, is_write_in_form};
use replay_writes::prepare::prepares_so;
use std::alloc::Global;
use world_base::did::Did;
use world_base::request::{CommitRequest, FetchRequest, PrepareRequest};
use world_base::target::{TargetMemory, TargetPlan, TargetState};

// Whether the writes of versions are in form.
fn are_in_form(versions: &[Version]) -> bool
    ensures { result ≡ list_all is_version_in_form versions.now }
{
    versions
        .iter()
        .all(|version| is_write_in_form(&version.write))
}

// Whether a target can read what it keeps.
fn can_read(plan: TargetPlan, durable: &Durable, decided: &[AttemptId]) -> bool
    ensures { Decides result (CanRead plan durable.now decided.now) }
{
    are_in_form(durable.versions.as_slice()) && are_led_here(plan, durable, decided)
}

// Whether a message is a Fetch that goes with its epoch.
fn is_timed(message: &Message) -> bool
    ensures { result ≡ is_timed message.now }
{
    match message {
        Message::Fetch { ep, .. } => ep.is_some(),
        _ => false,
    }
}

// Whether what waits are such.
fn are_timed(parked: &[Parked]) -> bool
    ensures { result ≡ list_all is_timed_ask parked.now }
{
    parked.iter().all(|fetch| is_timed(&fetch.ask))
}

// Whether a target can try again what waits.
fn can_try_again(plan: TargetPlan, durable: &Durable, memory: &TargetMemory) -> bool
    ensures { Decides result (CanTryAgain plan durable.now memory.now) }
{
    can_read(plan, durable, memory.leader.decided.as_slice())
        && are_timed(memory.member.parked.as_slice())
}

// What a Commit asks.
fn commit_in(message: &Message) -> Result<Option<CommitRequest>, Memory>
    ensures { IfOk result (λ request. request ≡ commit_in message.now) }
{
    match message {
        Message::Commit {
            attempt,
            ep,
            first,
            tracker,
            writes,
        } => Ok(Some(CommitRequest {
            attempt: *attempt,
            ep: *ep,
            first: *first,
            tracker: *tracker,
            writes: writes.copy()?,
        })),
        _ => Ok(None),
    }
}

// What a Prepare asks.
fn prepare_in(message: &Message) -> Result<Option<PrepareRequest>, Memory>
    ensures { IfOk result (λ request. request ≡ prepare_in message.now) }
{
    match message {
        Message::Prepare {
            entry,
            first,
            writes,
            inc,
        } => Ok(Some(PrepareRequest {
            entry: *entry,
            first: *first,
            writes: writes.copy()?,
            inc: *inc,
        })),
        _ => Ok(None),
    }
}

// Whether a target hears a Fetch so, which it can hear.
fn hears_fetch(
    alloc: Global,
    plan: TargetPlan,
    from: ActorId,
    request: &FetchRequest,
    before: &TargetState,
    after: &TargetState,
    did: &Did,
) -> Result<bool, Memory>
    ensures { IfOk result (λ yes. Decides yes (CanRead plan before.now.durable before.now.memory.leader.decided × FetchesSo plan from request.now before.now after.now did.now)) }
{
    if can_read(
        plan,
        &before.durable,
        before.memory.leader.decided.as_slice(),
    ) {
        fetches_so(alloc, plan, from, request, before, after, did)
    } else {
        Ok(false)
    }
}

// Whether a target hears a Commit so, which it can hear.
fn hears_commit(
    alloc: Global,
    plan: TargetPlan,
    from: ActorId,
    request: &CommitRequest,
    before: &TargetState,
    after: &TargetState,
    did: &Did,
) -> Result<bool, Memory>
    ensures { IfOk result (λ yes. Decides yes (CanCommit plan request.now.writes × CommitsSo plan from request.now before.now after.now did.now)) }
{
    if can_commit(plan, request.writes.as_slice()) {
        commits_so(alloc, plan, from, request, before, after, did)
    } else {
        Ok(false)
    }
}

// Whether a target hears a Prepare so, which it can hear.
fn hears_prepare(
    alloc: Global,
    plan: TargetPlan,
    request: &PrepareRequest,
    before: &TargetState,
    after: &TargetState,
    did: &Did,
) -> Result<bool, Memory>
    ensures { IfOk result (λ yes. Decides yes (AreWritesInForm request.now.writes × PreparesSo plan request.now before.now after.now did.now)) }
{
    if are_writes(request.writes.as_slice()) {
        prepares_so(alloc, plan, request, before, after, did)
    } else {
        Ok(false)
    }
}

// Whether a target hears an Ack so.
fn acks_so(
    alloc: Global,
    plan: TargetPlan,
    from: ActorId,
    attempt: AttemptId,
    inc: u64,
    refusal: &Option<Outcome>,
    before: &TargetState,
    after: &TargetState,
    did: &Did,
) -> Result<bool, Memory>
    ensures { IfOk result (λ yes. Decides yes (HearsSo plan from (message.Ack attempt inc refusal.now) before.now after.now did.now)) }
{
    let left = hears_ack(alloc, plan, from, attempt, inc, refusal, before)?;
    Ok(is_left_if(&Some(left), before, after, did))
}

// Whether a target hears a Marked so.
fn marked_so(
    alloc: Global,
    plan: TargetPlan,
    from: ActorId,
    inc: u64,
    attempts: &[AttemptId],
    before: &TargetState,
    after: &TargetState,
    did: &Did,
) -> Result<bool, Memory>
    ensures { IfOk result (λ yes. Decides yes (HearsSo plan from (message.Marked inc attempts.now) before.now after.now did.now)) }
{
    let left = hears_marked(alloc, plan, from, inc, attempts, before)?;
    Ok(is_left_if(&Some(left), before, after, did))
}

// Whether a target hears a Mark so.
fn marks_so(
    alloc: Global,
    plan: TargetPlan,
    from: ActorId,
    inc: u64,
    marks: &[(AttemptId, bool)],
    before: &TargetState,
    after: &TargetState,
    did: &Did,
) -> Result<bool, Memory>
    ensures { IfOk result (λ yes. Decides yes (HearsSo plan from (message.Mark inc marks.now) before.now after.now did.now)) }
{
    let left = hears_mark(alloc, plan, from, inc, marks, before)?;
    Ok(is_left_if(&Some(left), before, after, did))
}

// Whether a target hears a Query so.
fn queries_so(
    alloc: Global,
    plan: TargetPlan,
    from: ActorId,
    attempt: AttemptId,
    ask: Option<AttemptId>,
    before: &TargetState,
    after: &TargetState,
    did: &Did,
) -> Result<bool, Memory>
    ensures { IfOk result (λ yes. Decides yes (HearsSo plan from (message.Query attempt ask) before.now after.now did.now)) }
{
    let left = hears_query(alloc, plan, from, attempt, ask, before)?;
    Ok(is_left_if(&Some(left), before, after, did))
}

// Whether a target hears a Verdict so, which it can hear.
fn verdicts_so(
    alloc: Global,
    plan: TargetPlan,
    from: ActorId,
    told: (AttemptId, Option<AttemptId>, u64, Verdict),
    before: &TargetState,
    after: &TargetState,
    did: &Did,
) -> Result<bool, Memory>
    ensures { IfOk result (λ yes. Decides yes (HearsSo plan from (message.Verdict told.0 told.1 told.2 told.3) before.now after.now did.now)) }
{
    let (attempt, ask, inc, verdict) = told;
    if can_try_again(plan, &before.durable, &before.memory) {
        let left = hears_verdict(alloc, plan, from, attempt, ask, inc, verdict, before)?;
        Ok(is_left_if(&left, before, after, did))
    } else {
        Ok(false)
    }
}

// Whether a target hears a message so that other targets send, and that asks for no writes.
fn hears_plain(
    alloc: Global,
    plan: TargetPlan,
    from: ActorId,
    message: &Message,
    before: &TargetState,
    after: &TargetState,
    did: &Did,
) -> Result<bool, Memory>
    requires fetch { fetch_in message.now ≡ None }
    requires commit { commit_in message.now ≡ None }
    requires prepare { prepare_in message.now ≡ None }
    ensures { IfOk result (λ yes. Decides yes (HearsSo plan from message.now before.now after.now did.now)) }
{
    match message {
        Message::Ack {
            attempt,
            inc,
            refusal,
        } => acks_so(
            alloc, plan, from, *attempt, *inc, refusal, before, after, did,
        ),
        Message::Mark { inc, marks } => {
            marks_so(
                alloc,
                plan,
                from,
                *inc,
                marks.as_slice(),
                before,
                after,
                did,
            )
        }
        Message::Marked { inc, attempts } => {
            marked_so(
                alloc,
                plan,
                from,
                *inc,
                attempts.as_slice(),
                before,
                after,
                did,
            )
        }
        Message::Query { attempt, ask } => {
            queries_so(alloc, plan, from, *attempt, *ask, before, after, did)
        }
        Message::Verdict {
            attempt,
            ask,
            inc,
            verdict,
        } => {
            let told = (*attempt, *ask, *inc, *verdict);
            verdicts_so(alloc, plan, from, told, before, after, did)
        }
        _ => Ok(false),
    }
}

// The same of one that may ask for writes.
fn hears_prepared(
    alloc: Global,
    plan: TargetPlan,
    from: ActorId,
    message: &Message,
    before: &TargetState,
    after: &TargetState,
    did: &Did,
) -> Result<bool, Memory>
    requires fetch { fetch_in message.now ≡ None }
    requires commit { commit_in message.now ≡ None }
    ensures { IfOk result (λ yes. Decides yes (HearsSo plan from message.now before.now after.now did.now)) }
{
    match prepare_in(message)? {
        Some(request) => hears_prepare(alloc, plan, &request, before, after, did),
        None => hears_plain(alloc, plan, from, message, before, after, did),
    }
}

// Whether a target hears a message so that is no Fetch.
fn hears_other(
    alloc: Global,
    plan: TargetPlan,
    from: ActorId,
    message: &Message,
    before: &TargetState,
    after: &TargetState,
    did: &Did,
) -> Result<bool, Memory>
    requires { fetch_in message.now ≡ None }
    ensures { IfOk result (λ yes. Decides yes (HearsSo plan from message.now before.now after.now did.now)) }
{
    match commit_in(message)? {
        Some(request) => hears_commit(alloc, plan, from, &request, before, after, did),
        None => hears_prepared(alloc, plan, from, message, before, after, did),
    }
}

/// Whether a target hears a message so: it comes from one state to another, and this follows, at some
/// reading of its clock; and the message can be heard.
pub fn hears_so(
    alloc: Global,
    plan: TargetPlan,
    from: ActorId,
    message: &Message,
    before: &TargetState,
    after: &TargetState,
    did: &Did,
) -> Result<bool, Memory>
    ensures { IfOk result (λ yes. Decides yes (HearsSo plan from message.now before.now after.now did.now)) }
{
    match fetch_in(message)? {
        Some(request) => hears_fetch(alloc, plan, from, &request, before, after, did),
        None => hears_other(alloc, plan, from, message, before, after, did),
    }
}
