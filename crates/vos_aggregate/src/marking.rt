// Marks of the versions that go, made from the last version to the first.
//
// What hides an update is behind it, and so is each punch that it needs. So when an update comes, its
// chains have all that may hide it, the nearest first: it is hidden at once where the next version of
// its cell covers it. And once its mark is made, those of the punches that it needs are taken.
//
// A version costs a walk along the chains of its cells, to the first version that hides it at each
// sight. The worst case is a chain of many versions that don't: of the same bucket by accident, not
// settled, or extents of a block of one array that don't meet.
ghost use Rattle.std.specs.Prelude.{◌≡◌, ◌+◌, ◌<◌, false, length, map};
ghost use Rattle.base_types.specs.Operations.{write_path};
ghost use Rattle.base_types.specs.declared.path.Level.TheVariants.{Akey, Dkey, Obj};
ghost use Rattle.daos_model.specs.Prunes.{is_going, is_punch, is_unseen};
ghost use Rattle.vos_aggregate.specs.Buckets.{AreOf};
ghost use Rattle.vos_aggregate.specs.Places.{IsLastBefore};
ghost use Rattle.vos_aggregate.specs.Saying.{AreLater};
ghost use Rattle.vos_aggregate.specs.Sparing.{ArePlanned, marks_from, spared};

use crate::buckets::{Buckets, buckets_at};
use crate::chains::chain;
use crate::later::Later;
use crate::sights::{is_old, is_punch};
use crate::sparing::spare_level;
use base_types::path::{Level, Path};
use daos_model::durable::Version;
use daos_model::prunes::Plan;

// Takes the marks of the punches, among the versions in chains, that lead to a path.
fn spare(marks: &mut [bool], later: &Later, buckets: &Buckets, path: &Path, plan: &Plan)
    requires planned { ArePlanned plan.now.cont plan.now.upto later.now.from marks.old later.now.versions.now }
    requires buckets { AreOf (length later.now.heads.now) path.now buckets.now }
    ensures { marks.new ≡ spared Akey path.now (spared Dkey path.now (spared Obj path.now marks.old later.now.versions.now) later.now.versions.now) later.now.versions.now }
{
    spare_level(marks, later, buckets.object, Level::Obj, path, plan);
    spare_level(marks, later, buckets.dkey, Level::Dkey, path, plan);
    spare_level(marks, later, buckets.akey, Level::Akey, path, plan);
}

// Marks the version before those in chains, an update, and takes the marks of the punches that it needs.
fn mark_update(
    marks: &mut [bool],
    later: &Later,
    buckets: &Buckets,
    version: &Version,
    at: usize,
    plan: &Plan,
)
    requires place { later.now.from ≡ at + 1 }
    requires last { IsLastBefore later.now.versions.now later.now.from version.now }
    requires buckets { AreOf (length later.now.heads.now) (write_path version.now.write) buckets.now }
    requires marks { marks.old ≡ marks_from (is_unseen plan.now.cont plan.now.upto later.now.versions.now plan.now.snaps.now) plan.now.cont plan.now.upto (at + 1) later.now.versions.now }
    requires update { is_punch version.now.write ≡ false }
    ensures { marks.new ≡ marks_from (is_unseen plan.now.cont plan.now.upto later.now.versions.now plan.now.snaps.now) plan.now.cont plan.now.upto at later.now.versions.now }
{
    if later.is_unseen(buckets, version, plan) {
        marks[at] = true;
        return;
    }
    spare(marks, later, buckets, version.write.path(), plan);
    marks[at] = false;
}

// Marks the version before those in chains, and takes the marks of the punches that it needs.
fn mark_one(
    marks: &mut [bool],
    later: &Later,
    buckets: &Buckets,
    version: &Version,
    at: usize,
    plan: &Plan,
)
    requires place { later.now.from ≡ at + 1 }
    requires last { IsLastBefore later.now.versions.now later.now.from version.now }
    requires buckets { AreOf (length later.now.heads.now) (write_path version.now.write) buckets.now }
    requires marks { marks.old ≡ marks_from (is_unseen plan.now.cont plan.now.upto later.now.versions.now plan.now.snaps.now) plan.now.cont plan.now.upto (at + 1) later.now.versions.now }
    ensures { marks.new ≡ marks_from (is_unseen plan.now.cont plan.now.upto later.now.versions.now plan.now.snaps.now) plan.now.cont plan.now.upto at later.now.versions.now }
{
    if is_punch(&version.write) {
        marks[at] = is_old(version, plan);
        return;
    }
    mark_update(marks, later, buckets, version, at, plan);
}

// Marks the version at a place, those after which are marked and in chains, and puts the place in its
// own chain.
fn mark_at(marks: &mut [bool], heads: &mut [usize], nexts: &mut [usize], at: usize, plan: &Plan)
    requires at { at < length plan.now.versions.now }
    requires later { AreLater plan.now.versions.now heads.old nexts.old (at + 1) }
    requires marks { marks.old ≡ marks_from (is_unseen plan.now.cont plan.now.upto plan.now.versions.now plan.now.snaps.now) plan.now.cont plan.now.upto (at + 1) plan.now.versions.now }
    ensures later { AreLater plan.now.versions.now heads.new nexts.new at }
    ensures marks { marks.new ≡ marks_from (is_unseen plan.now.cont plan.now.upto plan.now.versions.now plan.now.snaps.now) plan.now.cont plan.now.upto at plan.now.versions.now }
{
    let version = &plan.versions[at];
    let buckets = buckets_at(version.write.path(), heads.len());
    let later = Later {
        versions: plan.versions,
        heads,
        nexts,
        from: at + 1,
    };
    mark_one(marks, &later, &buckets, version, at, plan);
    chain(heads, nexts, buckets.of(&version.write), at);
}

/// Marks the versions that a plan removes. None is marked, and none is in chains.
pub fn mark_all(marks: &mut [bool], heads: &mut [usize], nexts: &mut [usize], plan: &Plan)
    requires later { AreLater plan.now.versions.now heads.old nexts.old (length plan.now.versions.now) }
    requires marks { marks.old ≡ marks_from (is_unseen plan.now.cont plan.now.upto plan.now.versions.now plan.now.snaps.now) plan.now.cont plan.now.upto (length plan.now.versions.now) plan.now.versions.now }
    ensures { marks.new ≡ map (is_going plan.now.cont plan.now.upto plan.now.versions.now plan.now.snaps.now) plan.now.versions.now }
{
    let mut at = plan.versions.len();
    while at > 0 {
        at -= 1;
        mark_at(marks, heads, nexts, at, plan);
    }
}
