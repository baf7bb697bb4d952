// What follows from a turn, as it is added to the world.
ghost use Rattle.std.specs.Prelude.{◌≡◌, map, IfOk, Decides};
ghost use Rattle.world_base.specs.Events.{listed, with_epoch};
ghost use Rattle.world_base.specs.Letters.{letters_of};
ghost use Rattle.world_list.specs.Following.{FollowIs, IsTold};

use base_messages::actor::ActorId;
use base_messages::message::Posts;
use base_types::epoch::Epoch;
use base_types::id::AttemptId;
use base_types::items::{Items, Memory};
use base_types::report::Lines;
use run_base::asked::asked_after;
use run_base::lines::with_epoch;
use std::alloc::Global;
use world_base::did::{Did, Issues};
use world_base::letter::{Letter, Letters};
use world_base::world::World;
use world_same::lists::is_joined;
use world_same::same::Same;

/// The letters that are sent, those that are without an answer then, the lines that are added and the
/// epochs that are issued in a turn.
#[derive(Drop)]
pub struct Follow {
    pub letters: Letters,
    pub asked: Letters,
    pub issued: Issues,
    pub lines: Lines,
}

// What an actor sends.
fn letters_of(alloc: Global, from: ActorId, posts: Posts) -> Result<Letters, Memory>
    ensures { IfOk result (λ letters. letters ≡ letters_of from posts) }
{
    let mut letters = Vec::new(alloc);
    for post in posts.into_vec() {
        letters.push(Letter {
            from,
            to: post.to,
            message: post.message,
        })?;
    }
    Ok(Items::from_vec(letters))
}

// Lines as they are added.
fn lines_of(alloc: Global, issued: &Issues, lines: Lines) -> Result<Lines, Memory>
    ensures { IfOk result (λ added. added ≡ map (with_epoch issued.now) lines) }
{
    let mut added = Vec::new(alloc);
    for line in lines.into_vec() {
        added.push(with_epoch(issued.as_slice(), line))?;
    }
    Ok(Items::from_vec(added))
}

// The epoch that was issued, if one was.
fn issues_of(alloc: Global, issue: Option<(AttemptId, Epoch)>) -> Result<Issues, Memory>
    ensures { IfOk result (λ issued. issued ≡ listed issue) }
{
    let mut issued = Items::new(alloc);
    if let Some(issue) = issue {
        issued.push(issue)?;
    }
    Ok(issued)
}

/// What follows from a turn of an actor in a world.
pub fn what_follows(
    alloc: Global,
    before: &World,
    from: ActorId,
    did: Did,
) -> Result<Follow, Memory>
    ensures { IfOk result (λ f. FollowIs f before.now from did) }
{
    let Did {
        posts,
        lines,
        issued,
    } = did;
    let letters = letters_of(alloc, from, posts)?;
    let asked = asked_after(&before.asked, letters.as_slice())?;
    Ok(Follow {
        letters,
        asked,
        issued: issues_of(alloc, issued)?,
        lines: lines_of(alloc, &before.issued, lines)?,
    })
}

/// Whether the epochs, the lines and what is without an answer are those before and what follows from
/// a turn, and the numbers are those before.
pub fn is_told(before: &World, after: &World, follow: &Follow) -> bool
    ensures { Decides result (IsTold before.now follow.now after.now) }
{
    is_joined(
        after.issued.as_slice(),
        before.issued.as_slice(),
        follow.issued.as_slice(),
    ) && after.asked.is_same(&follow.asked)
        && after.numbers.is_same(&before.numbers)
        && is_joined(
            after.lines.as_slice(),
            before.lines.as_slice(),
            follow.lines.as_slice(),
        )
}
