// Punches that an update needs.
ghost use Rattle.std.specs.Prelude.{◌≡◌, ◌<◌, ◌%◌, ◌&&◌, ◌||◌, false, length, nat_lt, not, slice_set};
ghost use Rattle.std.specs.List.{slice_index_or};
ghost use Rattle.daos_model.specs.Prunes.{is_old};
ghost use Rattle.vos_aggregate.specs.Sparing.{ArePlanned, is_over, level_hash, spared};

use crate::later::Later;
use crate::sights::is_old;
use base_types::operation::Write;
use base_types::path::{Level, Path};
use daos_model::durable::Version;
use daos_model::prunes::Plan;

/// Whether a write is a punch of a level that leads to a path.
pub fn is_over(write: &Write, level: Level, path: &Path) -> bool
    ensures { result ≡ is_over level path.now write.now }
{
    match (level, write) {
        (Level::Obj, Write::PunchObject(at))
        | (Level::Dkey, Write::PunchDkey(at))
        | (Level::Akey, Write::PunchAkey(at)) => at.leads_to(path),
        _ => false,
    }
}

// Whether behind a version, marked or not, no punch of a level that leads to a path is marked: it is
// above the epoch, or such a punch that might go.
fn is_last(version: &Version, marked: bool, level: Level, path: &Path, plan: &Plan) -> bool
    ensures { result ≡ (nat_lt plan.now.upto.0 version.now.epoch.0 || (not marked && is_over level path.now version.now.write && is_old plan.now.cont plan.now.upto version.now)) }
{
    plan.upto.0 < version.epoch.0
        || (!marked && is_over(&version.write, level, path) && is_old(version, plan))
}

// Takes a mark, or leaves it.
fn unmark(marks: &mut [bool], at: usize, goes: bool)
    requires { at < length marks.old }
    ensures { marks.new ≡ slice_set marks.old at (slice_index_or marks.old at false && not goes) }
{
    marks[at] = marks[at] && !goes;
}

// Goes along the chain of a bucket. Behind a punch that might go and isn't marked none is, so each mark is
// taken once, however many updates need it.
fn spare_in_chain(
    marks: &mut [bool],
    later: &Later,
    bucket: usize,
    level: Level,
    path: &Path,
    plan: &Plan,
)
    requires planned { ArePlanned plan.now.cont plan.now.upto later.now.from marks.old later.now.versions.now }
    requires within { bucket < length later.now.heads.now }
    requires bucket { bucket ≡ level_hash level path.now % length later.now.heads.now }
    ensures { marks.new ≡ spared level path.now marks.old later.now.versions.now }
{
    let mut at = later.heads[bucket];
    while at < later.versions.len() {
        let version = &later.versions[at];
        if is_last(version, marks[at], level, path, plan) {
            return;
        }
        unmark(marks, at, is_over(&version.write, level, path));
        at = later.nexts[at];
    }
}

/// Takes the marks of the punches of a level, among the versions in chains, that lead to a path.
pub fn spare_level(
    marks: &mut [bool],
    later: &Later,
    bucket: usize,
    level: Level,
    path: &Path,
    plan: &Plan,
)
    requires planned { ArePlanned plan.now.cont plan.now.upto later.now.from marks.old later.now.versions.now }
    requires within { bucket < length later.now.heads.now }
    requires bucket { bucket ≡ level_hash level path.now % length later.now.heads.now }
    ensures marks { marks.new ≡ spared level path.now marks.old later.now.versions.now }
    ensures planned { ArePlanned plan.now.cont plan.now.upto later.now.from marks.new later.now.versions.now }
{
    spare_in_chain(marks, later, bucket, level, path, plan);
}
