// A client's turn, from where it goes on.
ghost use Rattle.std.specs.Prelude.{◌≡◌, ◌++◌, [], IfOk};
ghost use Rattle.client_core.specs.Clients.{GoesOnFrom, IsInPlace, PlanFits};
ghost use Rattle.world_base.specs.ClientTurns.{HearTurn, NextTurn, listed};

use crate::hears::heard;
use crate::quiet::{is_quiet, stage_on};
use base_messages::message::{Message, Post};
use base_types::items::{Items, Memory};
use base_types::report::Line;
use client_moves::moves::moved;
use client_moves::step::Move;
use std::alloc::Global;
use world_base::client::{ClientPlan, ClientState};
use world_base::did::Did;

/// What follows from a client's turn so far, and what the client then is.
#[derive(Drop)]
pub struct Turn {
    pub did: Did,
    pub state: ClientState,
}

// Nothing.
pub(crate) fn nothing(alloc: Global) -> Did
    ensures { result ≡ record { posts = []; lines = []; issued = None } }
{
    Did {
        posts: Items::new(alloc),
        lines: Items::new(alloc),
        issued: None,
    }
}

// A move's message and line follow, if any.
pub(crate) fn noted(mut did: Did, post: Option<Post>, line: Option<Line>) -> Result<Did, Memory>
    ensures posts { IfOk result (λ d. d.posts ≡ did.posts ++ listed post) }
    ensures lines { IfOk result (λ d. d.lines ≡ did.lines ++ listed line) }
    ensures issued { IfOk result (λ d. d.issued ≡ did.issued) }
{
    if let Some(post) = post {
        did.posts.push(post)?;
    }
    if let Some(line) = line {
        did.lines.push(line)?;
    }
    Ok(did)
}

// The client goes on, move by move, up to one that ends its turn.
pub(crate) fn goes_on(alloc: Global, plan: &ClientPlan, start: Turn) -> Result<Turn, Memory>
    requires fits { PlanFits plan.now }
    requires place { IsInPlace plan.now start.state }
    requires issued { start.did.issued ≡ None }
    ensures turn { IfOk result (λ t. GoesOnFrom plan.now start t) }
    ensures place { IfOk result (λ t. IsInPlace plan.now t.state) }
{
    let Turn { mut did, mut state } = start;
    loop {
        if is_quiet(plan, &state) {
            stage_on(&mut state);
            continue;
        }
        let Move {
            post,
            line,
            over,
            state: next,
        } = moved(alloc, plan, state)?;
        did = noted(did, post, line)?;
        state = next;
        if over {
            return Ok(Turn { did, state });
        }
    }
}

// A message is heard, and the client goes on unless that ended its turn.
pub(crate) fn hears(
    alloc: Global,
    plan: &ClientPlan,
    state: ClientState,
    message: &Message,
) -> Result<Turn, Memory>
    requires fits { PlanFits plan.now }
    requires place { IsInPlace plan.now state }
    ensures turn { IfOk result (λ t. HearTurn plan.now state message.now t.did t.state) }
    ensures place { IfOk result (λ t. IsInPlace plan.now t.state) }
{
    let Move {
        post,
        line,
        over,
        state,
    } = heard(alloc, plan, state, message)?;
    let did = noted(nothing(alloc), post, line)?;
    let turn = Turn { did, state };
    if over {
        Ok(turn)
    } else {
        goes_on(alloc, plan, turn)
    }
}

// A turn without a message: a turn that is skipped is counted; else the client goes on.
pub(crate) fn next(alloc: Global, plan: &ClientPlan, mut state: ClientState) -> Result<Turn, Memory>
    requires fits { PlanFits plan.now }
    requires place { IsInPlace plan.now state }
    ensures turn { IfOk result (λ t. NextTurn plan.now state t.did t.state) }
    ensures place { IfOk result (λ t. IsInPlace plan.now t.state) }
{
    let did = nothing(alloc);
    if state.skip > 0 {
        state.skip -= 1;
        return Ok(Turn { did, state });
    }
    goes_on(alloc, plan, Turn { did, state })
}
