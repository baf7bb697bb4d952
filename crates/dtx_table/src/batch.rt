// The Marks that idle work sends.
ghost use Rattle.std.specs.Prelude.{◌≡◌, filter, IfOk};
ghost use Rattle.std.specs.List.{list_any};
ghost use Rattle.dtx_base.specs.Leading.{is_due_to, is_led, marks_for, names_for};
ghost use Rattle.dtx_base.specs.Members.{all_targets};
ghost use Rattle.dtx_table.specs.Due.{bit_of, is_owed_at, is_owed_somewhere, may_owe, with_members};

use crate::bits::has_target;
use crate::marks::{is_owed, name, owed};
use crate::posts::push_commits;
use crate::seat::Seat;
use base_messages::message::Posts;
use base_types::entry::Entry;
use base_types::epoch::TargetId;
use base_types::items::{Items, Memory};
use dtx_base::leading::Naming;
use std::alloc::Global;

/// A batch: Marks, and what they name.
#[derive(Drop)]
pub struct Batch {
    pub posts: Posts,
    pub named: Vec<Naming>,
}

// The bit of a target, which a number from 64 on hasn't.
fn bit_of(target: TargetId) -> u64
    ensures { result ≡ bit_of target }
{
    if target < 64 {
        return 1u64 << target;
    }
    0
}

// Whether this target leads an attempt, of whose commit others may have to be told: its members aren't
// just this one and those that have confirmed it.
#[tactic(auto, unfolding(crate::specs::Due::may_owe))]
fn may_owe(me: TargetId, own: u64, entry: &Entry) -> bool
    requires { own ≡ bit_of me }
    ensures { result ≡ may_owe me entry.now }
{
    entry.members != entry.confirmed | own && entry.leader == me && entry.committed
}

// The entries of commits that this target leads, of which others may have to be told.
fn owing_of(alloc: Global, me: TargetId, entries: &[Entry]) -> Result<Vec<Entry>, Memory>
    ensures { IfOk result (λ owing. owing.items ≡ filter (may_owe me) entries.now) }
{
    let own = bit_of(me);
    let mut owing = Vec::new(alloc);
    for entry in entries {
        if may_owe(me, own, entry) {
            owing.push(*entry)?;
        }
    }
    Ok(owing)
}

// The members of any of these entries.
fn members_of(entries: &[Entry]) -> u64
    ensures { result ≡ with_members 0 entries.now }
{
    let mut members = 0;
    for entry in entries {
        members |= entry.members;
    }
    members
}

// One Mark for each target that is to be told of some of these commits. Only their members can be such.
fn marks_of(
    alloc: Global,
    incarnation: u64,
    down: u64,
    named: &[Naming],
    entries: &[Entry],
) -> Result<Batch, Memory>
    ensures posts { IfOk result (λ batch. batch.posts ≡ marks_for incarnation down named.now entries.now all_targets) }
    ensures named { IfOk result (λ batch. batch.named.items ≡ names_for incarnation down named.now entries.now all_targets) }
{
    let members = members_of(entries);
    let mut posts = Items::new(alloc);
    let mut names = Vec::new(alloc);
    for target in 0..64 {
        if has_target(members, target) {
            let told = owed(alloc, entries, named, down, target)?;
            push_commits(alloc, &mut posts, incarnation, target, &told)?;
            name(&mut names, target, incarnation, &told)?;
        }
    }
    Ok(Batch {
        posts,
        named: names,
    })
}

/// One Mark for each target that is to be told of commits of attempts that this one leads, in the order
/// of their numbers: by a leader of this number and incarnation, with these targets known to be down,
/// these names in Marks that are without an answer, and these entries kept. Entries that all have
/// confirmed cost one test each.
pub fn batch_of(
    alloc: Global,
    seat: Seat,
    down: u64,
    named: &[Naming],
    entries: &[Entry],
) -> Result<Batch, Memory>
    ensures posts { IfOk result (λ batch. batch.posts ≡ marks_for seat.incarnation down named.now (filter (is_led seat.me) entries.now) all_targets) }
    ensures named { IfOk result (λ batch. batch.named.items ≡ names_for seat.incarnation down named.now (filter (is_led seat.me) entries.now) all_targets) }
{
    let owing = owing_of(alloc, seat.me, entries)?;
    marks_of(alloc, seat.incarnation, down, named, &owing)
}

// Whether a target is to be told of a commit: it isn't down, and the commit is owed to it.
fn is_owed_at(down: u64, named: &[Naming], entry: &Entry, target: TargetId) -> bool
    ensures { result ≡ is_owed_at down named.now entry.now target }
{
    !has_target(down, target) && is_owed(entry, named, target)
}

// Whether some target is to be told of a commit.
fn is_owed_somewhere(down: u64, named: &[Naming], entry: &Entry) -> bool
    ensures { result ≡ is_owed_somewhere down named.now entry.now }
{
    for target in 0..64 {
        let is_here = is_owed_at(down, named, entry, target);
        if is_here {
            return true;
        }
    }
    false
}

// Whether some target is to be told of some commit of this leader, entry by entry.
fn is_some_owed(me: TargetId, down: u64, named: &[Naming], entries: &[Entry]) -> bool
    ensures { result ≡ list_any (is_owed_somewhere down named.now) (filter (may_owe me) entries.now) }
{
    let own = bit_of(me);
    for entry in entries {
        if may_owe(me, own, entry) && is_owed_somewhere(down, named, entry) {
            return true;
        }
    }
    false
}

/// Whether some target is to be told of a commit of an attempt that this target leads. An entry that all
/// have confirmed costs one test.
pub fn is_due(me: TargetId, down: u64, named: &[Naming], entries: &[Entry]) -> bool
    ensures { result ≡ list_any (is_due_to down named.now (filter (is_led me) entries.now)) all_targets }
{
    is_some_owed(me, down, named, entries)
}
