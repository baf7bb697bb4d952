// What a target knows that has just opened, and what follows.
ghost use Rattle.std.specs.Prelude.{◌≡◌, ◌∷◌, ◌^◌, ◌-◌, [], None, IfOk, IfErr, filter, min};
ghost use Rattle.base_types.specs.Epochs.{restart_floor};
ghost use Rattle.base_types.specs.declared.report.Line.TheVariants as line;
ghost use Rattle.dtx_base.specs.Joining.{first_member};
ghost use Rattle.dtx_base.specs.Leading.{first_memory, is_led};
ghost use Rattle.dtx_resync.specs.Resyncs.{asked_at};
ghost use Rattle.target_parts.specs.Stops.{stop_memory};

use base_types::entry::{Entries, Entry};
use base_types::epoch::Epoch;
use base_types::items::Items;
use base_types::report::{Line, Lines};
use daos_hlc::clock::Hlc;
use dtx_entries::table::EntryTable;
use dtx_resync::below::leader::decisions::Decisions;
use dtx_resync::statuses::opening_posts;
use std::alloc::Global;
use target_parts::below::member::member::Member;
use target_parts::knows::Knows;
use target_parts::stop::TargetStop;
use vos_stamp::stamps::Stamps;
use world_base::did::Did;
use world_base::target::TargetPlan;

/// What a target knows that has just opened, over a store with this lease and these entries: its ticks begin at the lease, it served no
/// read, and of the entries that it leads, those that aren't committed are undecided, or decided where there is no other member.
///
/// # Errors
///
/// For want of memory.
pub fn first_knows(
    alloc: Global,
    plan: TargetPlan,
    lease: u64,
    entries: Entries,
) -> Result<Knows, TargetStop>
    ensures clock { IfOk result (λ k. k.hlc ≡ record { target = plan.me; ticks = lease }) }
    ensures stamps { IfOk result (λ k. k.stamps.reads ≡ []) }
    ensures entries { IfOk result (λ k. k.entries.items ≡ entries) }
    ensures leader { IfOk result (λ k. k.leader ≡ first_memory (filter (is_led plan.me) entries)) }
    ensures member { IfOk result (λ k. k.member ≡ first_member plan.me) }
    ensures wanting { IfErr result (λ stop. stop ≡ stop_memory) }
{
    let entries = entries.into_vec();
    Ok(Knows {
        hlc: Hlc::new(plan.me, lease),
        stamps: Stamps::new(alloc)?,
        leader: Decisions::new(alloc, plan.me, &entries)?,
        member: Member::new(alloc, plan.me, plan.targets)?,
        entries: EntryTable::of_rows(alloc, plan.me, entries)?,
    })
}

// The floor that an opening sets: no epoch that the lease covers is above it.
fn restart_floor(lease: u64) -> Epoch
    ensures { result.0 ≡ min (2 ^ 64 - 1) (restart_floor lease) }
{
    Epoch(lease.saturating_mul(256).saturating_add(255))
}

// The line of an opening.
fn restart_line(
    alloc: Global,
    plan: TargetPlan,
    number: u32,
    incarnation: u64,
    lease: u64,
) -> Result<Lines, TargetStop>
    ensures lines { IfOk result (λ lines. lines ≡ line.Restart number plan.me incarnation (record { 0 = min (2 ^ 64 - 1) (restart_floor lease) }) ∷ []) }
    ensures wanting { IfErr result (λ stop. stop ≡ stop_memory) }
{
    let mut lines = Items::new(alloc);
    lines.push(Line::Restart {
        number,
        target: plan.me,
        incarnation,
        floor: restart_floor(lease),
    })?;
    Ok(lines)
}

/// What follows of an opening by the restart of a number, over a store with this incarnation, lease and entries: its line, and of each
/// entry that the target leads and that isn't committed every other member is asked what it holds.
///
/// # Errors
///
/// For want of memory.
pub fn opening_did(
    alloc: Global,
    plan: TargetPlan,
    number: u32,
    incarnation: u64,
    lease: u64,
    entries: &[Entry],
) -> Result<Did, TargetStop>
    ensures posts { IfOk result (λ did. did.posts ≡ asked_at plan.me incarnation entries.now) }
    ensures lines { IfOk result (λ did. did.lines ≡ line.Restart number plan.me incarnation (record { 0 = min (2 ^ 64 - 1) (restart_floor lease) }) ∷ []) }
    ensures issued { IfOk result (λ did. did.issued ≡ None) }
    ensures wanting { IfErr result (λ stop. stop ≡ stop_memory) }
{
    let posts = opening_posts(alloc, plan.me, incarnation, entries)?;
    let lines = restart_line(alloc, plan, number, incarnation, lease)?;
    Ok(Did {
        posts,
        lines,
        issued: None,
    })
}
