// Whether a container has a cell.
ghost use Rattle.std.specs.Prelude.{◌≡◌, ◌<◌, ◌^◌, true, IfOk, OnOk, IsErrOf, IsTrue, ⊤};
ghost use Rattle.pmem_pages.specs.Node.{IsKey};
ghost use Rattle.pmem_tree_base.specs.Calls.{Goes};
ghost use Rattle.vos_levels.specs.Calls.{HasThing, OfThing};
ghost use Rattle.vos_levels.specs.Levels.{hung_root};
ghost use Rattle.vos_chain.specs.declared.refusal.PiecesNo.TheVariants.{Stopped as stopped_no};
ghost use Rattle.vos_path.specs.Calls.{HasAt, OfAt};
ghost use Rattle.vos_path.specs.Objects.{below_owner, below_roots, dkey_level, object_path, objects_owner};
ghost use Rattle.vos_punches.specs.Rows.{moments_at};
ghost use Rattle.vos_reads.specs.Ways.{punched_at};
ghost use Rattle.vos_lists.specs.Covers.{CoverDkeys, CoverObjects, view_of};
ghost use Rattle.vos_lists.specs.Stands.{cont_key, cont_stands, object_stands};

use crate::dkeys::any_dkey;
use crate::entry::{ObjectEntry, PAIRS, next_object};
use crate::view::View;
use base_types::epoch::Epoch;
use base_types::id::ContId;
use base_types::path::Path;
use pmem_pages::pages::Pages;
use pmem_pages::steps::Steps;
use pmem_tree::TreeKey;
use pmem_tree::tree::Tree;
use std::alloc::Global;
use std::sync::ledger::Ledger;
use vos_chain::refusal::PiecesNo;
use vos_punches::punches::Punches;
use vos_values::keys::name_key;

// The key of a container's identity alone.
#[tactic(auto, unfolding(crate::specs::Stands::cont_key))]
fn cont_key(cont: ContId) -> TreeKey
    ensures key { result ≡ cont_key cont }
    ensures is { IsKey result }
    ensures small { cont.0 < 2 ^ 128 }
{
    name_key(&cont.0.to_be_bytes())
}

// Whether an object has a cell: whether one of its dkeys has one.
fn object_stands<P: Pages, L: Ledger>(
    object: ObjectEntry,
    pages: &mut P,
    alloc: Global,
    below: Epoch,
    punches: &Punches,
    steps: &mut Steps<L>,
) -> Result<bool, PiecesNo>
    requires here { HasAt P.tells (below_owner dkey_level) below_roots (P.blocks pages.old) object.roots (λ g. ⊤) }
    ensures found { IfOk result (λ b. OfAt P.tells (below_owner dkey_level) below_roots (P.blocks pages.old) object.roots (λ g. CoverDkeys (view_of below object.name) (moments_at punches.now) (object_path object.name) (punched_at below g.0) g.1 → b ≡ object_stands (view_of below object.name) g)) }
    ensures kept { IsTrue P.tells → P.blocks pages.new ≡ P.blocks pages.old }
    ensures budget { P.budget pages.new ≡ P.budget pages.old }
    ensures goes { Goes P.stopped P.count P.burns pages.old pages.new }
    ensures stopped { IsErrOf result stopped_no → P.stopped pages.new ≡ true }
    ensures went_on { OnOk result (P.stopped pages.new ≡ P.stopped pages.old) }
{
    let view = View {
        unit: object.name.obj.unit,
        below,
    };
    let path = Path {
        cont: object.name.cont,
        obj: Some(object.name.obj),
        dkey: None,
        akey: None,
    };
    any_dkey(
        object.roots.below,
        pages,
        alloc,
        view,
        &path,
        punches,
        steps,
    )
}

/// Whether a container has a cell below an epoch: whether one of its objects has one. The punches are those
/// that the logs have.
///
/// # Errors
///
/// `Stopped` comes only where the pages answered it.
pub fn cont_stands<P: Pages, L: Ledger>(
    objects: Tree,
    pages: &mut P,
    alloc: Global,
    cont: ContId,
    below: Epoch,
    punches: &Punches,
    steps: &mut Steps<L>,
) -> Result<bool, PiecesNo>
    requires kind { objects.kind ≡ 1 }
    requires here { HasThing P.tells objects_owner hung_root (P.blocks pages.old) objects.root (λ g. ⊤) }
    ensures found { IfOk result (λ b. OfThing P.tells objects_owner hung_root (P.blocks pages.old) objects.root (λ g. CoverObjects (moments_at punches.now) cont below g → b ≡ cont_stands cont below g)) }
    ensures kept { IsTrue P.tells → P.blocks pages.new ≡ P.blocks pages.old }
    ensures budget { P.budget pages.new ≡ P.budget pages.old }
    ensures goes { Goes P.stopped P.count P.burns pages.old pages.new }
    ensures stopped { IsErrOf result stopped_no → P.stopped pages.new ≡ true }
    ensures went_on { OnOk result (P.stopped pages.new ≡ P.stopped pages.old) }
{
    let mut key = cont_key(cont);
    for _ in 0..PAIRS {
        let Some(object) = next_object(objects, pages, &key, steps)? else {
            return Ok(false);
        };
        if object.name.cont.0 != cont.0 {
            return Ok(false);
        }
        if object_stands(object, pages, alloc, below, punches, steps)? {
            return Ok(true);
        }
        key = object.key;
    }
    Ok(false)
}
