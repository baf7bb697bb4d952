// What follows from a turn in which a snapshot is made or a container aggregated.
ghost use Rattle.std.specs.Prelude.{◌≡◌, IfOk, IfErr};
ghost use Rattle.world_base.specs.Snapshots.{follows, freeze_refusal, to_actor};
ghost use Rattle.target_parts.specs.Stops.{stop_memory};
ghost use Rattle.target_snaps.specs.FreezeTurns.{freeze_lines, refusal_by};

use crate::freezing::Froze;
use base_messages::actor::ActorId;
use base_messages::message::{Message, Post};
use base_types::epoch::Epoch;
use base_types::id::{AttemptId, ContId};
use base_types::items::{Items, Memory};
use base_types::outcome::{Cause, FloorWhy, Outcome};
use base_types::report::{Line, Lines};
use std::alloc::Global;
use target_parts::stop::TargetStop;
use vos_store::refusal::FreezeNo;
use world_base::did::Did;
use world_base::target::TargetPlan;

// Why a freeze is refused.
fn refusal(plan: TargetPlan, no: FreezeNo) -> Outcome
    ensures { result ≡ freeze_refusal plan no }
{
    match no {
        FreezeNo::Below(epoch, number) => Outcome::Restart(Cause::Floor {
            target: plan.me,
            epoch,
            why: FloorWhy::Aggregate(number),
        }),
        FreezeNo::NoPlace => Outcome::NoSpace {
            target: plan.me,
            need: 1,
            free: 0,
        },
        FreezeNo::Stopped => Outcome::Restart(Cause::Floor {
            target: plan.me,
            epoch: Epoch(0),
            why: FloorWhy::Opening,
        }),
    }
}

/// Why a freeze is refused, if it is.
pub fn refusal_by(plan: TargetPlan, froze: Froze) -> Option<Outcome>
    ensures { result ≡ refusal_by plan froze }
{
    match froze {
        Froze::Refused(no) => Some(refusal(plan, no)),
        Froze::Anew | Froze::Before => None,
    }
}

/// The line of a freeze that was a change.
///
/// # Errors
///
/// For want of memory.
pub fn freeze_lines(
    alloc: Global,
    plan: TargetPlan,
    cont: ContId,
    epoch: Epoch,
    froze: Froze,
) -> Result<Lines, Memory>
    ensures { IfOk result (λ lines. lines ≡ freeze_lines plan cont epoch froze) }
{
    let mut lines = Items::new(alloc);
    if let Froze::Anew = froze {
        lines.push(Line::Freeze {
            target: plan.me,
            cont,
            epoch,
        })?;
    }
    Ok(lines)
}

/// One message follows, with lines, and perhaps an epoch that was issued.
///
/// # Errors
///
/// For want of memory.
pub fn tells(
    alloc: Global,
    to: ActorId,
    message: Message,
    lines: Lines,
    issued: Option<(AttemptId, Epoch)>,
) -> Result<Did, TargetStop>
    ensures did { IfOk result (λ did. did ≡ follows (to_actor to message) lines issued) }
    ensures wanting { IfErr result (λ stop. stop ≡ stop_memory) }
{
    let mut posts = Items::new(alloc);
    posts.push(Post { to, message })?;
    Ok(Did {
        posts,
        lines,
        issued,
    })
}
