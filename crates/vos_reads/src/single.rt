// What a read of a single value is answered.
ghost use Rattle.std.specs.Prelude.{◌≡◌, true, ℕ, IfOk, OnOk, OnErr, IsErrOf, IsTrue, ⊤};
ghost use Rattle.std.specs.Option.{option_map};
ghost use Rattle.base_types.specs.Paths.{record_size};
ghost use Rattle.base_types.specs.declared.operation.Read.TheVariants.{Single as single_read};
ghost use Rattle.daos_model.specs.Answers.{answer};
ghost use Rattle.daos_model.specs.Durables.{version_key};
ghost use Rattle.daos_model.specs.Forms.{ends_at_akey, is_unit};
ghost use Rattle.daos_model.specs.Ordered.{in_order};
ghost use Rattle.daos_model.specs.Versions.{map_below};
ghost use Rattle.pmem_tree.specs.Calls.{StepsAtMost};
ghost use Rattle.pmem_tree_base.specs.Calls.{Goes};
ghost use Rattle.vos_levels.specs.Calls.{HasThing, OfThing};
ghost use Rattle.vos_levels.specs.Levels.{find_last, hung_root, things};
ghost use Rattle.vos_chain.specs.declared.refusal.PiecesNo.TheVariants.{Stopped as stopped_no};
ghost use Rattle.vos_single.specs.Singles.{is_under, single_owner, version_of};
ghost use Rattle.vos_path.specs.Objects.{objects_owner, objects_versions};
ghost use Rattle.vos_path.specs.Writes.{NamesAreKeys};
ghost use Rattle.vos_punches.specs.Punches.{ArePunchesOf};
ghost use Rattle.vos_punches.specs.Rows.{moments_at};
ghost use Rattle.vos_reads.specs.Cost.{OfNames, StepsToSingle};
ghost use Rattle.vos_reads.specs.Ways.{IsSettled, single_answer, start_of};

use crate::punch::hides;
use crate::way::way_down;
use base_types::answer::Answer;
use base_types::epoch::Epoch;
use base_types::path::Path;
use pmem_pages::pages::Pages;
use pmem_pages::steps::Steps;
use pmem_tree::tree::Tree;
use std::alloc::Global;
use std::sync::ledger::Ledger;
use vos_chain::refusal::PiecesNo;
use vos_punches::punches::Punches;
use vos_single::single::{Single, SingleVersion};
use vos_values::keys::{Moment, ObjectKey};

// The answer that a version makes, if there is one, and a punch.
fn single_answer(punched: Option<Moment>, version: Option<SingleVersion>) -> Answer
    ensures { result ≡ single_answer punched version }
{
    let Some(version) = version else {
        return Answer::Absent;
    };
    let moment = Moment {
        epoch: version.epoch,
        minor: version.minor,
    };
    if hides(punched, moment) {
        Answer::Absent
    } else {
        Answer::Bytes(version.bytes)
    }
}

// What the newest version below an epoch says, in the tree of a root, unless the punch is later.
fn newest_single<P: Pages, L: Ledger>(
    root: u32,
    pages: &mut P,
    alloc: Global,
    below: Epoch,
    punched: Option<Moment>,
    steps: &mut Steps<L>,
) -> Result<Answer, PiecesNo>
    requires here { HasThing P.tells single_owner hung_root (P.blocks pages.old) root (λ g. ⊤) }
    ensures found { IfOk result (λ a. OfThing P.tells single_owner hung_root (P.blocks pages.old) root (λ g. a ≡ single_answer punched (option_map version_of (find_last (is_under (start_of below)) (things g))))) }
    ensures steps { OfThing P.tells single_owner hung_root (P.blocks pages.old) root (λ g. StepsAtMost 2 5 g.0 steps.old steps.new) }
    ensures kept { IsTrue P.tells → P.blocks pages.new ≡ P.blocks pages.old }
    ensures budget { P.budget pages.new ≡ P.budget pages.old }
    ensures goes { Goes P.stopped P.count P.burns pages.old pages.new }
    ensures stopped { IsErrOf result stopped_no → P.stopped pages.new ≡ true }
    ensures went_on { OnOk result (P.stopped pages.new ≡ P.stopped pages.old) }
{
    let single = Single {
        tree: Tree { kind: 5, root },
    };
    let version = single.newest(pages, alloc, below, steps)?;
    Ok(single_answer(punched, version))
}

/// What a read of the single value of an akey is answered below an epoch, where every version below it that
/// overlaps the path is settled: what the map of the versions below is answered. The punches are those of all
/// versions of the objects.
///
/// # Errors
///
/// `Stopped` comes only where the pages answered it.
pub fn fetch_single<P: Pages, L: Ledger>(
    objects: Tree,
    pages: &mut P,
    alloc: Global,
    path: &Path,
    below: Epoch,
    punches: &Punches,
    steps: &mut Steps<L>,
) -> Result<Answer, PiecesNo>
    requires kind { objects.kind ≡ 1 }
    requires form { ends_at_akey path.now ≡ true }
    requires size { is_unit (record_size path.now) ≡ true }
    requires names { NamesAreKeys path.now }
    requires here { HasThing P.tells objects_owner hung_root (P.blocks pages.old) objects.root (IsSettled path.now below) }
    requires punches { HasThing P.tells objects_owner hung_root (P.blocks pages.old) objects.root (λ g. ArePunchesOf (objects_versions g) (moments_at punches.now)) }
    ensures found { IfOk result (λ a. OfThing P.tells objects_owner hung_root (P.blocks pages.old) objects.root (λ g. IsSettled path.now below g → ArePunchesOf (objects_versions g) (moments_at punches.now) → a ≡ answer (single_read path.now) (map_below (in_order version_key (objects_versions g)) below.0))) }
    ensures steps { OfThing P.tells objects_owner hung_root (P.blocks pages.old) objects.root (λ g. OfNames path.now (λ o k a. StepsToSingle o k a g steps.old steps.new)) }
    ensures kept { IsTrue P.tells → P.blocks pages.new ≡ P.blocks pages.old }
    ensures budget { P.budget pages.new ≡ P.budget pages.old }
    ensures goes { Goes P.stopped P.count P.burns pages.old pages.new }
    ensures stopped { IsErrOf result stopped_no → P.stopped pages.new ≡ true }
    ensures went_on { OnOk result (P.stopped pages.new ≡ P.stopped pages.old) }
{
    let (Some(obj), Some(dkey), Some(akey)) = (path.obj, &path.dkey, &path.akey) else {
        return Ok(Answer::Absent);
    };
    let object = ObjectKey {
        cont: path.cont,
        obj,
    };
    let roots = way_down(objects, pages, object, dkey, akey, steps)?;
    let punched = punches.covering(path, below);
    newest_single(roots.singles, pages, alloc, below, punched, steps)
}
