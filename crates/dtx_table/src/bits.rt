// The members of an attempt, one bit for each target.
ghost use Rattle.std.specs.Prelude.{◌≡◌, ◌<◌, ◌^◌, IfOk, IsTrue, bit_or};
ghost use Rattle.dtx_base.specs.Leading.{first_down};
ghost use Rattle.dtx_base.specs.Members.{are_all_counted, has_target, is_other_member, other_members, with_target};

use base_types::entry::Entry;
use base_types::epoch::TargetId;
use base_types::items::Memory;
use std::alloc::Global;

/// Whether a target's bit is set.
pub fn has_target(set: u64, target: TargetId) -> bool
    ensures has { result ≡ has_target set target }
    ensures within { IsTrue result → target < 64 }
{
    target < 64 && (set >> target) & 1 == 1
}

/// Whether the bit of this number is set, which may be one that no target bears.
pub fn has_number(set: u64, number: u16) -> bool
    ensures has { result ≡ has_target set number }
    ensures within { IsTrue result → number < 64 }
{
    number < 64 && has_target(set, number as u8)
}

/// These targets and one more.
pub fn with_target(set: u64, target: TargetId) -> u64
    requires { target < 64 }
    ensures { result ≡ with_target set target }
{
    set | (1u64 << target)
}

/// Whether a target is a member that isn't the leader.
#[tactic(auto, unfolding(dtx_base::specs::Members::is_other_member))]
pub fn is_other_member(entry: &Entry, target: TargetId) -> bool
    ensures is { result ≡ is_other_member entry.now target }
    ensures within { IsTrue result → target < 64 }
{
    has_target(entry.members, target) && target != entry.leader
}

/// Whether this number, which may be one that no target bears, is that of a member that isn't the leader.
#[tactic(auto, unfolding(dtx_base::specs::Members::is_other_member))]
pub fn is_other_number(entry: &Entry, number: u16) -> bool
    ensures is { result ≡ is_other_member entry.now number }
    ensures within { IsTrue result → number < 64 }
{
    has_number(entry.members, number) && number != u16::from(entry.leader)
}

/// The members but the leader, in the order of their numbers.
#[tactic(auto, using(crate::specs::Ranges::from_one), unfolding(dtx_base::specs::Members::other_members))]
pub fn other_members(alloc: Global, entry: &Entry) -> Result<Vec<TargetId>, Memory>
    ensures { IfOk result (λ others. others.items ≡ other_members entry.now) }
{
    let mut others = Vec::new(alloc);
    for target in 0..64 {
        if is_other_member(entry, target) {
            others.push(target)?;
        }
    }
    Ok(others)
}

/// Whether all other members are counted.
#[tactic(auto, unfolding(dtx_base::specs::Members::are_all_counted, dtx_base::specs::Members::other_members))]
pub fn are_all_counted(entry: &Entry, counted: u64) -> bool
    ensures { result ≡ are_all_counted entry.now counted }
{
    for target in 0..64 {
        if is_other_member(entry, target) && !has_target(counted, target) {
            return false;
        }
    }
    true
}

/// The least of some members that is known to be down.
#[tactic(auto, unfolding(dtx_base::specs::Leading::first_down))]
pub fn first_down(members: u64, down: u64) -> Option<TargetId>
    ensures { result ≡ first_down members down }
{
    for target in 0..64 {
        if has_target(members, target) && has_target(down, target) {
            return Some(target);
        }
    }
    None
}
