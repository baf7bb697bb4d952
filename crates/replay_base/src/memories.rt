// What a target knows, again.
ghost use Rattle.std.specs.Prelude.{◌≡◌, IfOk};

use base_types::items::{Items, Memory};
use base_types::shown::Shown;
use dtx_base::leading::LeaderMemory;
use dtx_base::member::{MemberMemory, Parked};
use std::alloc::Global;
use vos_contents::tables::copied;
use world_base::target::TargetMemory;

// The same reads again.
fn copy_reads(alloc: Global, reads: &[Shown]) -> Result<Items<Shown>, Memory>
    ensures { IfOk result (λ copy. copy ≡ reads.now) }
{
    let mut copy = Vec::with_capacity(alloc, reads.len())?;
    for read in reads {
        copy.push(read.copy()?)?;
    }
    Ok(Items::from_vec(copy))
}

// A Fetch that waits, again.
fn copy_fetch(fetch: &Parked) -> Result<Parked, Memory>
    ensures { IfOk result (λ copy. copy ≡ fetch.now) }
{
    Ok(Parked {
        on: fetch.on,
        leader: fetch.leader,
        ask: fetch.ask.copy()?,
    })
}

// The Fetches that wait, again.
fn copy_parked(alloc: Global, parked: &[Parked]) -> Result<Items<Parked>, Memory>
    ensures { IfOk result (λ copy. copy ≡ parked.now) }
{
    let mut copy = Vec::with_capacity(alloc, parked.len())?;
    for fetch in parked {
        copy.push(copy_fetch(fetch)?)?;
    }
    Ok(Items::from_vec(copy))
}

// What a leader remembers, again.
fn copy_leader(alloc: Global, memory: &LeaderMemory) -> Result<LeaderMemory, Memory>
    ensures { IfOk result (λ copy. copy ≡ memory.now) }
{
    Ok(LeaderMemory {
        undecided: Items::from_vec(copied(alloc, memory.undecided.as_slice())?),
        decided: Items::from_vec(copied(alloc, memory.decided.as_slice())?),
        named: Items::from_vec(copied(alloc, memory.named.as_slice())?),
        down: memory.down,
    })
}

// What a member remembers, again.
fn copy_member(alloc: Global, memory: &MemberMemory) -> Result<MemberMemory, Memory>
    ensures { IfOk result (λ copy. copy ≡ memory.now) }
{
    Ok(MemberMemory {
        parked: copy_parked(alloc, memory.parked.as_slice())?,
        inquiries: Items::from_vec(copied(alloc, memory.inquiries.as_slice())?),
    })
}

/// The same again.
pub fn copy_memory(alloc: Global, memory: &TargetMemory) -> Result<TargetMemory, Memory>
    ensures { IfOk result (λ copy. copy ≡ memory.now) }
{
    Ok(TargetMemory {
        ticks: memory.ticks,
        stamps: copy_reads(alloc, memory.stamps.as_slice())?,
        leader: copy_leader(alloc, &memory.leader)?,
        member: copy_member(alloc, &memory.member)?,
        collecting: memory.collecting.copy()?,
    })
}
