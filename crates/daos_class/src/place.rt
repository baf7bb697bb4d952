// Where the groups of an object are.
ghost use Rattle.std.specs.Prelude.{◌≡◌, ◌<◌, IfOk};
ghost use Rattle.base_types.specs.Placement.{ClassFits, first_shard, groups, leader_of, members, shard_target, shard_targets};

use crate::class::Placed;
use base_types::epoch::{TargetId, Targets};
use base_types::id::ObjId;
use base_types::items::{Items, Memory};
use std::alloc::Global;

// The target of a shard of the object of this number.
fn shard_target(number: u64, shard: u8, n: u8) -> TargetId
    requires { 0 < n }
    ensures { result ≡ shard_target number shard n }
{
    let n = u64::from(n);
    ((number % n + u64::from(shard)) % n) as u8
}

/// The targets that hold a group of an object, the leader first. The class must fit the targets,
/// of which there are n, and have that group.
pub fn members(alloc: Global, obj: ObjId, group: u8, n: u8) -> Result<Targets, Memory>
    requires fits { ClassFits obj.class n }
    requires within { group < groups obj.class n }
    ensures { IfOk result (λ targets. targets ≡ members obj group n) }
{
    let replicas = obj.class.replicas();
    let first = group * replicas;
    let mut targets = Vec::with_capacity(alloc, usize::from(replicas))?;
    for shard in first..first + replicas {
        targets.push(shard_target(obj.number, shard, n))?;
    }
    Ok(Items::from_vec(targets))
}

/// The target that leads a group of an object: its first member.
#[tactic(auto, unfolding(base_types::specs::Placement::leader_of))]
pub fn leader_of(obj: ObjId, group: u8, n: u8) -> TargetId
    requires fits { ClassFits obj.class n }
    requires within { group < groups obj.class n }
    ensures exact { result ≡ leader_of obj group n }
    ensures target { result < n }
{
    shard_target(obj.number, group * obj.class.replicas(), n)
}
