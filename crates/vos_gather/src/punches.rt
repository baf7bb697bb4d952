// The punches of all objects, for an index of them.
ghost use Rattle.std.specs.Prelude.{◌≡◌, true, IfOk, OnOk, IsErrOf, IsTrue, ⊤};
ghost use Rattle.pmem_tree_base.specs.Calls.{Goes};
ghost use Rattle.vos_levels.specs.Calls.{HasThing, OfThing};
ghost use Rattle.vos_levels.specs.Levels.{hung_root};
ghost use Rattle.vos_chain.specs.declared.refusal.PiecesNo.TheVariants.{Stopped as stopped_no};
ghost use Rattle.vos_path.specs.Objects.{objects_owner, objects_versions};
ghost use Rattle.vos_punches.specs.Punches.{ArePunchesOf};
ghost use Rattle.vos_punches.specs.Rows.{moments_at};
ghost use Rattle.vos_gather.specs.Gathered.{Gathered};

use crate::objects::list_names;
use crate::wanted::Wanted;
use base_types::items::Memory;
use pmem_pages::pages::Pages;
use pmem_pages::steps::Steps;
use pmem_tree::tree::Tree;
use std::alloc::Global;
use std::sync::ledger::Ledger;
use vos_chain::refusal::PiecesNo;
use vos_punches::punches::Punches;
use vos_settle::name::WriteName;

// Adds punches to an index, by their names.
fn add_all(alloc: Global, names: &[WriteName], index: &mut Punches) -> Result<(), Memory>
    ensures gathered { OnOk result (Gathered names.now (moments_at index.old) (moments_at index.new)) }
{
    for name in names {
        let path = name.path.copy()?;
        index.add(alloc, path, name.moment())?;
    }
    Ok(())
}

/// The punches of all versions of the objects, settled or not, gathered by one walk over all logs.
///
/// # Errors
///
/// `Stopped` comes only where the pages answered it.
pub fn gather_punches<P: Pages, L: Ledger>(
    objects: Tree,
    pages: &mut P,
    alloc: Global,
    steps: &mut Steps<L>,
) -> Result<Punches, PiecesNo>
    requires kind { objects.kind ≡ 1 }
    requires here { HasThing P.tells objects_owner hung_root (P.blocks pages.old) objects.root (λ g. ⊤) }
    ensures gathered { IfOk result (λ punches. OfThing P.tells objects_owner hung_root (P.blocks pages.old) objects.root (λ g. ArePunchesOf (objects_versions g) (moments_at punches))) }
    ensures kept { IsTrue P.tells → P.blocks pages.new ≡ P.blocks pages.old }
    ensures budget { P.budget pages.new ≡ P.budget pages.old }
    ensures goes { Goes P.stopped P.count P.burns pages.old pages.new }
    ensures stopped { IsErrOf result stopped_no → P.stopped pages.new ≡ true }
    ensures went_on { OnOk result (P.stopped pages.new ≡ P.stopped pages.old) }
{
    let wanted = Wanted {
        updates: false,
        change: None,
        moments: None,
        under: None,
    };
    let names = list_names(objects, pages, alloc, &wanted, steps)?;
    let mut punches = Punches::new(alloc);
    add_all(alloc, &names, &mut punches)?;
    Ok(punches)
}
