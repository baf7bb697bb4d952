// The members of an attempt, by its writes.
ghost use Rattle.std.specs.Prelude.{◌≡◌, ◌<◌, ◌≤◌, ◌++◌, All, IfOk, IfSome, OnOk};
ghost use Rattle.std.specs.List.{range_with_len};
ghost use Rattle.base_types.specs.Operations.{write_path};
ghost use Rattle.base_types.specs.Placement.{ClassFits, groups, groups_members, members, path_members, writes_members};
ghost use Rattle.world_base.specs.Commits as commit;

use base_types::epoch::TargetId;
use base_types::id::ObjId;
use base_types::items::Memory;
use base_types::operation::MinorWrite;
use base_types::path::Path;
use daos_class::class::Placed;
use daos_class::place::members;
use dtx_table::bits::with_target;
use std::alloc::Global;

// The members of a group of an object follow other targets.
fn push_group(
    alloc: Global,
    all: &mut Vec<TargetId>,
    obj: ObjId,
    group: u8,
    targets: u8,
) -> Result<(), Memory>
    requires fits { ClassFits obj.class targets }
    requires within { group < groups obj.class targets }
    ensures { OnOk result (all.new.items ≡ all.old.items ++ members obj group targets) }
{
    let members = members(alloc, obj, group, targets)?;
    all.extend_from_slice(members.as_slice())?;
    Ok(())
}

// The members of all groups of an object do.
fn push_object(
    alloc: Global,
    all: &mut Vec<TargetId>,
    obj: ObjId,
    targets: u8,
) -> Result<(), Memory>
    requires fits { ClassFits obj.class targets }
    ensures { OnOk result (all.new.items ≡ all.old.items ++ groups_members obj (range_with_len 0 (groups obj.class targets)) targets) }
{
    let count = obj.class.groups(targets);
    for group in 0..count {
        push_group(alloc, all, obj, group, targets)?;
    }
    Ok(())
}

// The members of the groups that a path touches do.
#[tactic(auto, unfolding(base_types::specs::Placement::path_members))]
fn push_path(alloc: Global, all: &mut Vec<TargetId>, path: &Path, targets: u8) -> Result<(), Memory>
    requires fits { IfSome path.now.obj (λ o. ClassFits o.class targets) }
    ensures { OnOk result (all.new.items ≡ all.old.items ++ path_members path.now targets) }
{
    let Some(obj) = path.obj else {
        return Ok(());
    };
    match &path.dkey {
        None => push_object(alloc, all, obj, targets),
        Some(dkey) => {
            let group = obj.class.group_of(dkey, targets);
            push_group(alloc, all, obj, group, targets)
        }
    }
}

// The members of the groups that writes touch.
fn writes_members(
    alloc: Global,
    writes: &[MinorWrite],
    targets: u8,
) -> Result<Vec<TargetId>, Memory>
    requires fit { All (λ w. IfSome (write_path w.write).obj (λ o. ClassFits o.class targets)) writes.now }
    ensures { IfOk result (λ all. all.items ≡ writes_members writes.now targets) }
{
    let mut all = Vec::new(alloc);
    for write in writes {
        push_path(alloc, &mut all, write.write.path(), targets)?;
    }
    Ok(all)
}

// One bit for each of these targets.
fn bits_of(targets: &[TargetId]) -> u64
    requires few { All (λ t. t < 64) targets.now }
    ensures { result ≡ commit.bits_of targets.now }
{
    let mut bits = 0;
    let mut i = targets.len();
    while i > 0 {
        i -= 1;
        bits = with_target(bits, targets[i]);
    }
    bits
}

/// The members of an attempt with these writes, one bit for each target, on so many targets, which all
/// their classes fit.
///
/// # Errors
///
/// For want of memory.
pub fn members_of(alloc: Global, writes: &[MinorWrite], targets: u8) -> Result<u64, Memory>
    requires few { targets ≤ 64 }
    requires fit { All (λ w. IfSome (write_path w.write).obj (λ o. ClassFits o.class targets)) writes.now }
    ensures { IfOk result (λ all. all ≡ commit.bits_of (writes_members writes.now targets)) }
{
    let all = writes_members(alloc, writes, targets)?;
    Ok(bits_of(&all))
}
