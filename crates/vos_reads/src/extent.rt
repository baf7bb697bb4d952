// What a read of an array is answered.
ghost use Rattle.std.specs.Prelude.{◌≡◌, ◌+◌, ◌<◌, ◌^◌, true, IfOk, OnOk, IsErrOf, IsTrue};
ghost use Rattle.base_types.specs.Paths.{record_size};
ghost use Rattle.base_types.specs.declared.operation.Read.TheVariants.{Extent as extent_read};
ghost use Rattle.daos_model.specs.Answers.{answer};
ghost use Rattle.daos_model.specs.Durables.{version_key};
ghost use Rattle.daos_model.specs.Forms.{ends_at_akey, is_unit};
ghost use Rattle.daos_model.specs.Ordered.{in_order};
ghost use Rattle.daos_model.specs.Versions.{map_below};
ghost use Rattle.pmem_tree_base.specs.Calls.{Goes};
ghost use Rattle.vos_levels.specs.Calls.{HasThing, OfThing};
ghost use Rattle.vos_levels.specs.Levels.{hung_root};
ghost use Rattle.vos_chain.specs.declared.refusal.PiecesNo.TheVariants.{Stopped as stopped_no};
ghost use Rattle.vos_path.specs.Objects.{objects_owner, objects_versions};
ghost use Rattle.vos_path.specs.Writes.{NamesAreKeys};
ghost use Rattle.vos_punches.specs.Punches.{ArePunchesOf};
ghost use Rattle.vos_punches.specs.Rows.{moments_at};
ghost use Rattle.vos_reads.specs.Cost.{OfNames, StepsToExtents};
ghost use Rattle.vos_reads.specs.Ways.{IsSettled};

use crate::way::way_down;
use base_types::answer::Answer;
use base_types::epoch::Epoch;
use base_types::path::Path;
use pmem_pages::pages::Pages;
use pmem_pages::steps::Steps;
use pmem_tree::tree::Tree;
use std::alloc::Global;
use std::sync::ledger::Ledger;
use vos_chain::refusal::PiecesNo;
use vos_extent::extent::Extents;
use vos_punches::punches::Punches;
use vos_values::keys::ObjectKey;

/// What a read of so many indexes of an array, from one on, is answered below an epoch, where every version below it that
/// overlaps the path is settled: what the map of the versions below is answered. The punches are those of all
/// versions of the objects.
///
/// # Errors
///
/// `Stopped` comes only where the pages answered it.
pub fn fetch_extent<P: Pages, L: Ledger>(
    objects: Tree,
    pages: &mut P,
    alloc: Global,
    path: &Path,
    low: u32,
    len: u32,
    below: Epoch,
    punches: &Punches,
    steps: &mut Steps<L>,
) -> Result<Answer, PiecesNo>
    requires kind { objects.kind ≡ 1 }
    requires form { ends_at_akey path.now ≡ true }
    requires size { is_unit (record_size path.now) ≡ true }
    requires end { low + len < 2 ^ 32 }
    requires names { NamesAreKeys path.now }
    requires here { HasThing P.tells objects_owner hung_root (P.blocks pages.old) objects.root (IsSettled path.now below) }
    requires punches { HasThing P.tells objects_owner hung_root (P.blocks pages.old) objects.root (λ g. ArePunchesOf (objects_versions g) (moments_at punches.now)) }
    ensures found { IfOk result (λ a. OfThing P.tells objects_owner hung_root (P.blocks pages.old) objects.root (λ g. IsSettled path.now below g → ArePunchesOf (objects_versions g) (moments_at punches.now) → a ≡ answer (extent_read path.now low len) (map_below (in_order version_key (objects_versions g)) below.0))) }
    ensures steps { OfThing P.tells objects_owner hung_root (P.blocks pages.old) objects.root (λ g. OfNames path.now (λ o k a. StepsToExtents low (low + len) o k a g steps.old steps.new)) }
    ensures kept { IsTrue P.tells → P.blocks pages.new ≡ P.blocks pages.old }
    ensures budget { P.budget pages.new ≡ P.budget pages.old }
    ensures goes { Goes P.stopped P.count P.burns pages.old pages.new }
    ensures stopped { IsErrOf result stopped_no → P.stopped pages.new ≡ true }
    ensures went_on { OnOk result (P.stopped pages.new ≡ P.stopped pages.old) }
{
    let (Some(obj), Some(dkey), Some(akey)) = (path.obj, &path.dkey, &path.akey) else {
        return Ok(Answer::Absent);
    };
    let object = ObjectKey {
        cont: path.cont,
        obj,
    };
    let roots = way_down(objects, pages, object, dkey, akey, steps)?;
    let punched = punches.covering(path, below);
    let extents = Extents {
        tree: Tree {
            kind: 6,
            root: roots.extents,
        },
    };
    let pieces = extents.pieces(
        obj.unit,
        pages,
        alloc,
        low,
        low + len,
        below,
        punched,
        steps,
    )?;
    Ok(Answer::Parts(pieces))
}
