// The writes of the groups that a target belongs to.
ghost use Rattle.std.specs.Prelude.{◌≡◌, ◌-◌, ◌<◌, ◌≤◌, All, IfOk, IfSome};
ghost use Rattle.std.specs.List.{list_any, range_with_len};
ghost use Rattle.base_types.specs.Operations.{write_path};
ghost use Rattle.base_types.specs.Placement.{ClassFits, dkey_groups, groups, groups_members, members, path_members};
ghost use Rattle.dtx_base.specs.Members.{is_number, is_written_at, writes_at};

use base_types::epoch::TargetId;
use base_types::id::ObjId;
use base_types::items::{Items, Memory, TryCopy};
use base_types::operation::{MinorWrite, MinorWrites};
use base_types::path::Path;
use daos_class::class::Placed;
use daos_class::place::members;
use std::alloc::Global;

// Whether a target is one of some.
fn is_one(targets: &[TargetId], target: TargetId) -> bool
    ensures { result ≡ list_any (is_number target) targets.now }
{
    for other in targets {
        if *other == target {
            return true;
        }
    }
    false
}

// Whether a target is a member of a group of an object.
fn is_in_group(
    alloc: Global,
    obj: ObjId,
    group: u8,
    targets: u8,
    target: TargetId,
) -> Result<bool, Memory>
    requires fits { ClassFits obj.class targets }
    requires within { group < groups obj.class targets }
    ensures { IfOk result (λ is. is ≡ list_any (is_number target) (members obj group targets)) }
{
    let members = members(alloc, obj, group, targets)?;
    Ok(is_one(members.as_slice(), target))
}

// Whether a target is a member of some group of an object.
fn is_in_object(alloc: Global, obj: ObjId, targets: u8, target: TargetId) -> Result<bool, Memory>
    requires fits { ClassFits obj.class targets }
    ensures { IfOk result (λ is. is ≡ list_any (is_number target) (groups_members obj (range_with_len 0 (groups obj.class targets)) targets)) }
{
    let count = obj.class.groups(targets);
    for group in 0..count {
        let is_there = is_in_group(alloc, obj, group, targets, target)?;
        if is_there {
            return Ok(true);
        }
    }
    Ok(false)
}

// Whether a target is a member of a group that a path touches.
#[tactic(auto, unfolding(base_types::specs::Placement::path_members))]
fn is_on_path(alloc: Global, path: &Path, targets: u8, target: TargetId) -> Result<bool, Memory>
    requires { IfSome path.now.obj (λ o. ClassFits o.class targets) }
    ensures { IfOk result (λ is. is ≡ list_any (is_number target) (path_members path.now targets)) }
{
    let Some(obj) = path.obj else {
        return Ok(false);
    };
    match &path.dkey {
        None => is_in_object(alloc, obj, targets, target),
        Some(dkey) => {
            let group = obj.class.group_of(dkey, targets);
            is_in_group(alloc, obj, group, targets, target)
        }
    }
}

// Whether a write is one of a target's groups.
#[tactic(auto, unfolding(dtx_base::specs::Members::is_written_at))]
fn is_written_at(
    alloc: Global,
    write: &MinorWrite,
    targets: u8,
    target: TargetId,
) -> Result<bool, Memory>
    requires { IfSome (write_path write.now.write).obj (λ o. ClassFits o.class targets) }
    ensures { IfOk result (λ is. is ≡ is_written_at targets target write.now) }
{
    is_on_path(alloc, write.write.path(), targets, target)
}

/// The writes of a target's groups, on so many targets, which all their classes fit.
pub fn writes_at(
    alloc: Global,
    writes: &[MinorWrite],
    targets: u8,
    target: TargetId,
) -> Result<MinorWrites, Memory>
    requires { All (λ w. IfSome (write_path w.write).obj (λ o. ClassFits o.class targets)) writes.now }
    ensures { IfOk result (λ theirs. theirs ≡ writes_at targets target writes.now) }
{
    let mut theirs = Vec::new(alloc);
    for write in writes {
        if is_written_at(alloc, write, targets, target)? {
            theirs.push(write.copy()?)?;
        }
    }
    Ok(Items::from_vec(theirs))
}
