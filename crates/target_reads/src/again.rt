// A target hears a Verdict, and tries those Fetches again that waited for it.
ghost use Rattle.std.specs.Prelude.{◌≡◌, ◌∷◌, ℕ, [], IfOk, OnOk, Option, Some, is_some, true, false};
ghost use Rattle.world_ended.specs.Asking.{Asked, EndsAsked, PostsGoWith};
ghost use Rattle.std.specs.Option.{ForSome};
ghost use Rattle.base_types.specs.declared.entry.Verdict.{Verdict as VerdictOf};
ghost use Rattle.base_types.specs.declared.id.AttemptId.{AttemptId as Attempt};
ghost use Rattle.daos_model.specs.declared.durable.Durable.{Durable};
ghost use Rattle.vos_store.specs.Refusals.{always_stop};
ghost use Rattle.world_base.specs.declared.target.TargetMemory.{TargetMemory};
ghost use Rattle.world_base.specs.Requests.{fetch_message};
ghost use Rattle.world_base.specs.Roles.{is_prepared, told_by};
ghost use Rattle.world_base.specs.Verdicts.{VerdictStage, fetcher, settles_by, settling_change};
ghost use Rattle.target_parts.specs.world_contents.posts.Forms.{PostsInForm, TargetPosts};
ghost use Rattle.target_parts.specs.Knowing.{IsAskHere, IsParkable, LeadsWell, memory_of};
ghost use Rattle.target_reads.specs.Again.{AreHere, AreParkable, MadeSome, TriedTurn, TriesOnce, VerdictTurn};
ghost use Rattle.world_ended.specs.world_letters.kinds.Loads.{AnswersOnce};
ghost use Rattle.target_parts.specs.Standing.{IsTarget, Keeps, TurnRuns};

use crate::fetches::hear_known;
use base_messages::actor::ActorId;
use base_messages::message::{Message, Messages, Posts};
use base_types::entry::{Settle, Verdict};
use base_types::id::AttemptId;
use dtx_base::member::Freed;
use std::alloc::Global;
use target_parts::halt::Halt;
use target_parts::kept::settle_prepared;
use target_parts::knows::Knows;
use target_parts::stop::{TargetStop, stop_of};
use target_parts::telling::{push_all, sends};
use vos_store::refusal::Stopped;
use vos_store::store::Store;
use world_base::did::Did;
use world_base::request::FetchRequest;
use world_base::target::TargetPlan;

/// What a Fetch that waited asks for.
fn fetch_of(message: Message) -> FetchRequest
    requires { IsParkable message }
    ensures asks { fetch_message result ≡ message }
    ensures known { is_some result.ep ≡ true }
{
    match message {
        Message::Fetch {
            attempt,
            op,
            group,
            ep,
            first,
            tracker,
            read,
            snapshot,
        } => FetchRequest {
            attempt,
            op,
            group,
            ep,
            first,
            tracker,
            read,
            snapshot,
        },
        _ => unreachable!(),
    }
}

// The client that a Fetch came from.
fn fetcher(request: &FetchRequest) -> ActorId
    ensures { result ≡ fetcher request.now }
{
    ActorId {
        client: true,
        number: request.attempt.client,
    }
}

// A Fetch that waited is heard again.
fn hear_again<S: Store>(
    alloc: Global,
    plan: TargetPlan,
    store: &mut S,
    knows: &mut Knows,
    ask: Message,
) -> Result<Did, TargetStop>
    requires target { IsTarget plan (S.state store.old) (S.durable store.old) knows.old }
    requires running { (S.state store.old).stopped ≡ false }
    requires parkable { IsParkable ask }
    requires here { ForSome (S.durable store.old) (IsAskHere ask) }
    ensures turn { (d : Durable) → S.durable store.old ≡ Some d → (reading : ℕ)
        → TriedTurn plan (memory_of knows.old) reading ask d (S.state store.old)
        (S.durable store.new) (S.state store.new) (S.may store.new) (memory_of knows.new) result }
    ensures posts { IfOk result (λ did. PostsInForm plan.targets knows.old.leader knows.new.leader did.posts) }
    ensures reads { IfOk result (λ did. AnswersOnce (ask ∷ []) knows.old.member.memory knows.new.member.memory did.posts) }
    ensures ends { (asked : Asked) → IfOk result (λ did. EndsAsked asked knows.old.leader knows.new.leader did.posts) }
    ensures target { IsTarget plan (S.state store.new) (S.durable store.new) knows.new }
    ensures stopped { TurnRuns result (S.state store.old) (S.state store.new) (S.durable store.old) (S.durable store.new) }
{
    let request = fetch_of(ask);
    let from = fetcher(&request);
    let epoch = request.ep.unwrap();
    hear_known(alloc, plan, store, knows, from, &request, epoch)
}

// Fetches that waited are tried again, one after another; what follows from them follows other messages.
fn try_again<S: Store>(
    alloc: Global,
    plan: TargetPlan,
    store: &mut S,
    knows: &mut Knows,
    posts: Posts,
    asks: Messages,
) -> Result<Did, TargetStop>
    requires target { IsTarget plan (S.state store.old) (S.durable store.old) knows.old }
    requires running { (S.state store.old).stopped ≡ false }
    requires sent { TargetPosts plan.targets posts }
    requires freed { (asked : Asked) → PostsGoWith asked posts }
    requires parkable { AreParkable asks }
    requires here { ForSome (S.durable store.old) (AreHere asks) }
    ensures turn { (d : Durable) → S.durable store.old ≡ Some d → (m : TargetMemory) (reading : ℕ) (a : Attempt) (ask : Option Attempt) (v : VerdictOf)
        → VerdictTurn plan m reading a ask v (VerdictStage.Freed asks (memory_of knows.old) posts) d (S.state store.old)
        (S.durable store.new) (S.state store.new) (S.may store.new) (memory_of knows.new) result }
    ensures posts { IfOk result (λ did. PostsInForm plan.targets knows.old.leader knows.new.leader did.posts) }
    ensures reads { IfOk result (λ did. TriesOnce asks posts knows.old.member.memory knows.new.member.memory did.posts) }
    ensures ends { (asked : Asked) → IfOk result (λ did. EndsAsked asked knows.old.leader knows.new.leader did.posts) }
    ensures target { IsTarget plan (S.state store.new) (S.durable store.new) knows.new }
    ensures stopped { TurnRuns result (S.state store.old) (S.state store.new) (S.durable store.old) (S.durable store.new) }
{
    let mut posts = posts;
    let mut rest = asks.into_vec();
    while !rest.is_empty() {
        let did = hear_again(alloc, plan, store, knows, rest.remove(0))?;
        push_all(&mut posts, did.posts)?;
    }
    Ok(sends(alloc, posts, None))
}

// An attempt is settled by a Verdict on it, where it is prepared here.
fn settle_by<S: Store>(
    store: &mut S,
    plan: TargetPlan,
    knows: &mut Knows,
    attempt: AttemptId,
    verdict: Verdict,
) -> Result<(), Stopped>
    requires running { (S.state store.old).stopped ≡ false }
    requires leads { ForSome (S.durable store.old) (LeadsWell plan (memory_of knows.old) knows.old.entries.items) }
    ensures made { (d : Durable) → S.durable store.old ≡ Some d
        → MadeSome (settling_change attempt (settles_by is_prepared verdict attempt d)) d (S.state store.old) (S.durable store.new) (S.state store.new) (S.may store.new) result }
    ensures leader { knows.new.leader ≡ (told_by verdict attempt (memory_of knows.old)).leader }
    ensures keeps { Keeps plan always_stop result (S.state store.old) (S.state store.new) (S.durable store.old) (S.durable store.new) knows.old knows.new }
{
    match verdict {
        Verdict::Committed => settle_prepared(store, plan, knows, attempt, Settle::Commit),
        Verdict::Aborted => settle_prepared(store, plan, knows, attempt, Settle::Abort),
        Verdict::Undecided => Ok(()),
    }
}

/// It hears a Verdict: the attempt is settled, where it is prepared here, whoever leads it, and the
/// Fetches that wait for it are tried again, in the order in which they were parked.
///
/// # Errors
///
/// `Store` where the store stopped, and then the turn was cut short; else for want of memory.
pub fn hear_verdict<S: Store>(
    alloc: Global,
    plan: TargetPlan,
    store: &mut S,
    knows: &mut Knows,
    attempt: AttemptId,
    ask: Option<AttemptId>,
    verdict: Verdict,
) -> Result<Did, TargetStop>
    requires target { IsTarget plan (S.state store.old) (S.durable store.old) knows.old }
    requires running { (S.state store.old).stopped ≡ false }
    ensures turn { (d : Durable) → S.durable store.old ≡ Some d → (reading : ℕ)
        → VerdictTurn plan (told_by verdict attempt (memory_of knows.old)) reading attempt ask verdict VerdictStage.Heard d (S.state store.old)
        (S.durable store.new) (S.state store.new) (S.may store.new) (memory_of knows.new) result }
    ensures posts { IfOk result (λ did. PostsInForm plan.targets knows.old.leader knows.new.leader did.posts) }
    ensures reads { IfOk result (λ did. AnswersOnce [] knows.old.member.memory knows.new.member.memory did.posts) }
    ensures ends { (asked : Asked) → IfOk result (λ did. EndsAsked asked knows.old.leader knows.new.leader did.posts) }
    ensures target { IsTarget plan (S.state store.new) (S.durable store.new) knows.new }
    ensures stopped { TurnRuns result (S.state store.old) (S.state store.new) (S.durable store.old) (S.durable store.new) }
{
    let Freed { posts, again } = knows.member.hear_verdict(attempt, ask, verdict)?;
    match settle_by(store, plan, knows, attempt, verdict) {
        Ok(()) => try_again(alloc, plan, store, knows, posts, again),
        Err(Stopped) => Err(stop_of(alloc, Halt::Stopped, None)),
    }
}
