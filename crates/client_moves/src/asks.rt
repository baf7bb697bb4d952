// What a client asks, and which targets.
ghost use Rattle.std.specs.Prelude.{◌≡◌, ◌≤◌, ◌<◌, ◌^◌, ◌++◌, length, IfOk, IfSome, OnOk};
ghost use Rattle.base_types.specs.Operations.{act_path, read_path};
ghost use Rattle.base_types.specs.Placement.{ClassFits, path_leader, shard_target};
ghost use Rattle.daos_model.specs.Accesses.{asked_member, minor_write, minor_writes, op_path};
ghost use Rattle.client_moves.specs.Moves.{ObjFits, move_of};
ghost use Rattle.world_base.specs.ClientTurns.{act_read, asks_read, condition_read, group_asked, group_count, member_asked, question};

use crate::step::{Move, attempt_id};
use base_messages::message::Message;
use base_types::epoch::TargetId;
use base_types::id::ObjId;
use base_types::items::{Items, Memory};
use base_types::operation::{Act, Cond, MinorWrite, MinorWrites, Op, Read};
use base_types::path::Path;
use daos_class::class::Placed;
use daos_class::place::leader_of;
use std::alloc::Global;
use world_base::client::{ClientPlan, ClientState, Present, Stage};

/// How many groups are asked about a path: one where there is a dkey, else all of its object.
pub fn group_count(path: &Path, targets: u8) -> u8
    requires { ObjFits targets path.now.obj }
    ensures { result ≡ group_count path.now.obj path.now.dkey targets }
{
    match (path.obj, &path.dkey) {
        (None, _) => 0,
        (Some(obj), None) => obj.class.groups(targets),
        (Some(_), Some(_)) => 1,
    }
}

// The group that is asked about a path as the one of this number.
fn group_asked(path: &Path, targets: u8, number: u8) -> u8
    requires { ObjFits targets path.now.obj }
    ensures { result ≡ group_asked path.now.obj path.now.dkey targets number }
{
    match (path.obj, &path.dkey) {
        (Some(obj), Some(dkey)) => obj.class.group_of(dkey, targets),
        _ => number,
    }
}

// The target of a shard of the object of this number.
fn shard_target(number: u64, shard: u64, n: u8) -> TargetId
    requires some { 0 < n }
    requires few { shard < 2 ^ 32 }
    ensures { result ≡ shard_target number shard n }
{
    let n = u64::from(n);
    ((number % n + shard) % n) as u8
}

// The member of an object's group that the command of this number asks.
fn asked_member(obj: ObjId, command: u32, targets: u8, group: u8) -> TargetId
    requires { ClassFits obj.class targets }
    ensures { result ≡ asked_member obj command targets group }
{
    let replicas = u64::from(obj.class.replicas());
    let first = u64::from(group) * replicas;
    shard_target(obj.number, first + u64::from(command) % replicas, targets)
}

// The member of a group that the command of this number asks about a path.
fn member_asked(path: &Path, command: u32, targets: u8, group: u8) -> TargetId
    requires { ObjFits targets path.now.obj }
    ensures { result ≡ member_asked path.now.obj command targets group }
{
    match path.obj {
        None => 0,
        Some(obj) => asked_member(obj, command, targets, group),
    }
}

// A read is asked of the next of its groups.
pub(crate) fn asks_read(
    plan: &ClientPlan,
    state: ClientState,
    present: Present,
    snapshot: bool,
    read: Read,
) -> Move
    requires { ObjFits plan.now.targets (read_path read).obj }
    ensures { move_of result ≡ asks_read plan.now state present snapshot read }
{
    let group = group_asked(read.path(), plan.targets, present.group);
    let target = member_asked(read.path(), state.command, plan.targets, group);
    let message = Message::Fetch {
        attempt: attempt_id(plan, &state, &present),
        op: present.op,
        group,
        ep: present.epoch,
        first: present.first,
        tracker: state.tracker,
        read,
        snapshot,
    };
    Move::asks(target, message, present, state)
}

// What is asked for an operation's condition: whether its path has a cell.
fn condition_read(op: &Op) -> Result<Option<Read>, Memory>
    ensures exact { IfOk result (λ read. read ≡ condition_read op.now op.now.cond) }
    ensures path { IfOk result (λ read. IfSome read (λ r. read_path r ≡ op_path op.now)) }
{
    match op.cond {
        Cond::Free => Ok(None),
        Cond::Must | Cond::MustNot => Ok(Some(Read::Exists(op.act.path().copy()?))),
    }
}

// The read that an act is.
fn act_read(act: &Act) -> Result<Option<Read>, Memory>
    ensures exact { IfOk result (λ read. read ≡ act_read act.now) }
    ensures path { IfOk result (λ read. IfSome read (λ r. read_path r ≡ act_path act.now)) }
{
    match act {
        Act::Fetch(read) => Ok(Some(read.copy()?)),
        Act::Change(_) => Ok(None),
    }
}

// What is asked of an operation at a stage.
pub(crate) fn question(stage: Stage, op: &Op) -> Result<Option<Read>, Memory>
    ensures exact { IfOk result (λ read. read ≡ question stage op.now) }
    ensures path { IfOk result (λ read. IfSome read (λ r. read_path r ≡ op_path op.now)) }
{
    match stage {
        Stage::Skip => Ok(None),
        Stage::Cond => condition_read(op),
        Stage::Act => act_read(&op.act),
    }
}

// What an act writes follows, under the number of its operation.
fn put_written(writes: &mut Vec<MinorWrite>, minor: u8, act: &Act) -> Result<(), Memory>
    ensures { OnOk result (writes.new.items ≡ writes.old.items ++ minor_write minor act.now) }
{
    if let Act::Change(write) = act {
        writes.push(MinorWrite {
            minor,
            write: write.copy()?,
        })?;
    }
    Ok(())
}

// The writes among operations; the number of its operation is a write's minor.
pub(crate) fn minor_writes(alloc: Global, ops: &[Op]) -> Result<MinorWrites, Memory>
    requires { length ops.now ≤ 64 }
    ensures { IfOk result (λ writes. writes ≡ minor_writes 0 ops.now) }
{
    let mut writes = Vec::new(alloc);
    for (i, op) in ops.iter().enumerate() {
        put_written(&mut writes, i as u8, &op.act)?;
    }
    Ok(Items::from_vec(writes))
}

// The leader of the group that leads a path.
#[tactic(auto, unfolding(base_types::specs::Placement::path_leader))]
pub(crate) fn path_leader(path: &Path, targets: u8) -> TargetId
    requires { ObjFits targets path.now.obj }
    ensures { result ≡ path_leader path.now targets }
{
    let Some(obj) = path.obj else {
        return 0;
    };
    let group = match &path.dkey {
        None => 0,
        Some(dkey) => obj.class.group_of(dkey, targets),
    };
    leader_of(obj, group, targets)
}
