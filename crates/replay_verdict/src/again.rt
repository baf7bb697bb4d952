// Fetches are tried again, one after another.
ghost use Rattle.std.specs.Prelude.{◌≡◌, ◌++◌, true, IfOk, is_some};
ghost use Rattle.std.specs.List.{list_all};
ghost use Rattle.replay_base.specs.Heard.{CanRead, is_timed};
ghost use Rattle.replay_verdict.specs.Tried.{AllTried, GoesOn, TriesAsk, TriesOne};

use crate::asks::{fetch_in, fetcher};
use base_messages::message::{Message, Posts};
use base_types::items::{Items, Memory};
use replay_base::told::Left;
use replay_fetch::fetch::fetch_again;
use replay_fetch::reads::Work;
use std::alloc::Global;
use world_base::request::FetchRequest;
use world_base::target::TargetPlan;

/// How far a Verdict's turn came, and what is to be sent.
#[derive(Drop)]
pub struct Trial {
    pub work: Work,
    pub posts: Posts,
}

// Messages, and then others.
fn joined(posts: Posts, others: Posts) -> Result<Posts, Memory>
    ensures { IfOk result (λ all. all ≡ posts ++ others) }
{
    let mut all = posts.into_vec();
    let mut others = others.into_vec();
    all.append(&mut others)?;
    Ok(Items::from_vec(all))
}

// How far it came once a Fetch that is tried left this.
fn goes_on(posts: Posts, left: Left) -> Result<Trial, Memory>
    ensures { IfOk result (GoesOn posts left) }
{
    let Left {
        durable,
        changed,
        memory,
        did,
    } = left;
    Ok(Trial {
        work: Work {
            durable,
            changed,
            memory,
        },
        posts: joined(posts, did.posts)?,
    })
}

// A Fetch is tried again.
fn try_one(
    alloc: Global,
    plan: TargetPlan,
    request: &FetchRequest,
    trial: Trial,
) -> Result<Option<Trial>, Memory>
    requires timed { is_some request.now.ep ≡ true }
    requires read { CanRead plan trial.work.durable trial.work.memory.leader.decided }
    ensures { IfOk result (TriesOne plan request.now trial) }
{
    let Trial { work, posts } = trial;
    match fetch_again(alloc, plan, fetcher(request), request, work)? {
        Some(left) => {
            let next = goes_on(posts, left)?;
            Ok(Some(next))
        }
        None => Ok(None),
    }
}

// The same, if it is one.
fn try_ask(
    alloc: Global,
    plan: TargetPlan,
    ask: &Message,
    trial: Trial,
) -> Result<Option<Trial>, Memory>
    requires timed { is_timed ask.now ≡ true }
    requires read { CanRead plan trial.work.durable trial.work.memory.leader.decided }
    ensures { IfOk result (TriesAsk plan ask.now trial) }
{
    match fetch_in(ask)? {
        Some(request) => try_one(alloc, plan, &request, trial),
        None => Ok(None),
    }
}

/// All of these are, in their order, if each can be.
pub fn try_all(
    alloc: Global,
    plan: TargetPlan,
    asks: &[Message],
    trial: Trial,
) -> Result<Option<Trial>, Memory>
    requires timed { list_all is_timed asks.now ≡ true }
    requires read { CanRead plan trial.work.durable trial.work.memory.leader.decided }
    ensures { IfOk result (AllTried plan asks.now trial) }
{
    let mut trial = trial;
    for ask in asks {
        match try_ask(alloc, plan, ask, trial)? {
            Some(next) => trial = next,
            None => return Ok(None),
        }
    }
    Ok(Some(trial))
}
