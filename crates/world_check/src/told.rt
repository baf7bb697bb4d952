// What followed from a target's turn, as the world after it tells.
ghost use Rattle.std.specs.Prelude.{◌≡◌, drop, length, map, slice_get, IfOk};
ghost use Rattle.world_check.specs.Told.{did_told, post_of};

use base_messages::message::{Post, Posts};
use base_types::epoch::Epoch;
use base_types::id::AttemptId;
use base_types::items::{Items, Memory};
use std::alloc::Global;
use world_base::did::Did;
use world_base::letter::Letter;
use world_base::world::World;

// A letter as what was sent.
fn post_of(letter: &Letter) -> Result<Post, Memory>
    ensures { IfOk result (λ post. post ≡ post_of letter.now) }
{
    Ok(Post {
        to: letter.to,
        message: letter.message.copy()?,
    })
}

// The letters behind so many.
fn behind(letters: &[Letter], kept: usize) -> &[Letter]
    ensures { result.now ≡ drop kept letters.now }
{
    if kept >= letters.len() {
        return &letters[letters.len()..];
    }
    &letters[kept..]
}

// Letters as what was sent.
fn posts_of(alloc: Global, letters: &[Letter]) -> Result<Posts, Memory>
    ensures { IfOk result (λ posts. posts ≡ map post_of letters.now) }
{
    let mut posts = Items::new(alloc);
    for letter in letters {
        posts.push(post_of(letter)?)?;
    }
    Ok(posts)
}

// The first epoch behind those that were issued before.
fn issue_told(before: &World, after: &World) -> Option<(AttemptId, Epoch)>
    ensures { result ≡ slice_get after.now.issued (length before.now.issued) }
{
    after.issued.as_slice().get(before.issued.len()).copied()
}

/// What followed from a target's turn, as the world after it tells: the letters behind so many, and the
/// first epoch behind those that were issued before.
pub fn did_told(alloc: Global, before: &World, after: &World, kept: usize) -> Result<Did, Memory>
    ensures { IfOk result (λ did. did ≡ did_told kept before.now after.now) }
{
    Ok(Did {
        posts: posts_of(alloc, behind(after.messages.as_slice(), kept))?,
        lines: Items::new(alloc),
        issued: issue_told(before, after),
    })
}
