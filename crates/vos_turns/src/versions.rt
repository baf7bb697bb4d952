// The versions that a change takes become done, or go.
ghost use Rattle.std.specs.Prelude.{◌≡◌, ◌≤◌, ◌<◌, ◌+◌, true, ℕ, length, All, IsErrOf, IsTrue, OnOk, ⊤};
ghost use Rattle.base_types.specs.Operations.{write_path};
ghost use Rattle.pmem_tree.specs.Calls.{IsShort};
ghost use Rattle.pmem_tree_base.specs.Calls.{Goes};
ghost use Rattle.pmem_tree_base.specs.declared.refusal.TreeNo.{TreeNo};
ghost use Rattle.vos_levels.specs.Calls.{HasThing, OfThing};
ghost use Rattle.vos_levels.specs.Changes.{keeps};
ghost use Rattle.vos_levels.specs.Levels.{hung_root};
ghost use Rattle.vos_fitting.specs.vos_path.Objects.{objects_owner, objects_versions};
ghost use Rattle.vos_fitting.specs.vos_path.Writes.{ObjectsAreSmall};
ghost use Rattle.vos_fitting.specs.vos_settle.Costs.{Spends};
ghost use Rattle.vos_fitting.specs.vos_settle.Names.{kind_of};
ghost use Rattle.vos_fitting.specs.vos_settle.Versions.{WriteTurn};
ghost use Rattle.vos_small.specs.Rooms.{HasLeft, change_bytes, change_ranges};
ghost use Rattle.vos_small.specs.Small.{most_digits};
ghost use Rattle.vos_turns.specs.Steps.{VersionsTurn};
ghost use Rattle.vos_turns.specs.Turns.{AreFew, CanBeNamed, after_one, task_of};

use base_types::operation::Write;
use daos_model::durable::Version;
use pmem_pages::pages::Pages;
use pmem_pages::steps::Steps;
use pmem_tree::TreeNo;
use pmem_tree::tree::Tree;
use std::sync::ledger::Ledger;
use vos_fitting::below::settle::task::{Task, WriteKind};
use vos_fitting::below::settle::write::change_write;
use vos_levels::change::Change;
use vos_values::keys::Moment;

// What a write is by its name.
fn kind_of(write: &Write) -> WriteKind
    ensures { result ≡ kind_of write.now }
{
    match write {
        Write::Single(_, _) => WriteKind::Single,
        Write::Extent(_, low, _) => WriteKind::Extent(*low),
        Write::PunchObject(_) | Write::PunchDkey(_) | Write::PunchAkey(_) => WriteKind::Punch,
    }
}

// The version of one write becomes done, or goes, with the creations of the same attempt.
fn change_version<P: Pages, L: Ledger>(
    objects: Tree,
    pages: &mut P,
    change: Change,
    version: &Version,
    steps: &mut Steps<L>,
) -> Result<(), TreeNo>
    requires kind { objects.kind ≡ 1 }
    requires named { CanBeNamed version.now }
    requires here { HasThing P.tells objects_owner hung_root (P.blocks pages.old) objects.root (λ g. ⊤) }
    ensures changed { OnOk result (OfThing P.tells objects_owner hung_root (P.blocks pages.old) objects.root (λ g. WriteTurn (task_of change version.now) (write_path version.now.write) (P.blocks pages.old) g (P.blocks pages.new) objects.root)) }
    ensures no_block { IsErrOf result TreeNo.NoBlock → ⊥ }
    ensures too_much { IsErrOf result TreeNo.TooMuch → HasLeft change_ranges change_bytes (P.budget pages.old) → OfThing P.tells objects_owner hung_root (P.blocks pages.old) objects.root (λ g. ObjectsAreSmall most_digits g → ⊥) }
    ensures few_left { IsErrOf result TreeNo.TooMuch → OfThing P.tells objects_owner hung_root (P.blocks pages.old) objects.root (λ g. ObjectsAreSmall most_digits g → IsShort most_digits (P.budget pages.new)) }
    ensures staged { OnOk result (OfThing P.tells objects_owner hung_root (P.blocks pages.old) objects.root (λ g. ObjectsAreSmall most_digits g → Spends 631 (P.budget pages.old) (P.budget pages.new))) }
    ensures committed { keeps change ≡ true → Spends 4 (P.budget pages.old) (P.budget pages.new) }
    ensures free { OnOk result (OfThing P.tells objects_owner hung_root (P.blocks pages.old) objects.root (λ g. (P.budget pages.old).free ≤ (P.budget pages.new).free)) }
    ensures gives { OnOk result (OfThing P.tells objects_owner hung_root (P.blocks pages.old) objects.root (λ g. (P.budget pages.old).free + length (objects_versions g) ≤ (P.budget pages.new).free + length (after_one change version.now (objects_versions g)))) }
    ensures goes { Goes P.stopped P.count P.burns pages.old pages.new }
    ensures stopped { IsErrOf result TreeNo.Stopped → P.stopped pages.new ≡ true }
    ensures went_on { OnOk result (P.stopped pages.new ≡ P.stopped pages.old) }
{
    let task = Task {
        kind: kind_of(&version.write),
        at: Moment {
            epoch: version.epoch,
            minor: version.minor,
        },
        by: version.by,
        change,
    };
    let mut objects = objects;
    change_write(&mut objects, pages, task, version.write.path(), steps)
}

// Of some versions those that the change takes, one after another.
pub(crate) fn change_versions<P: Pages, L: Ledger>(
    objects: Tree,
    pages: &mut P,
    change: Change,
    versions: &[Version],
    steps: &mut Steps<L>,
) -> Result<(), TreeNo>
    requires kind { objects.kind ≡ 1 }
    requires named { All CanBeNamed versions.now }
    requires few { IsTrue P.tells → AreFew change versions.now }
    requires here { HasThing P.tells objects_owner hung_root (P.blocks pages.old) objects.root (ObjectsAreSmall most_digits) }
    requires room { HasLeft change_ranges change_bytes (P.budget pages.old) }
    ensures changed { OnOk result (OfThing P.tells objects_owner hung_root (P.blocks pages.old) objects.root (λ g. ObjectsAreSmall most_digits g → VersionsTurn change versions.now (P.blocks pages.old) g (P.budget pages.old) (P.blocks pages.new) objects.root (P.budget pages.new))) }
    ensures no_block { IsErrOf result TreeNo.NoBlock → IsTrue P.tells → ⊥ }
    ensures too_much { IsErrOf result TreeNo.TooMuch → IsTrue P.tells → ⊥ }
    ensures goes { Goes P.stopped P.count P.burns pages.old pages.new }
    ensures stopped { IsErrOf result TreeNo.Stopped → P.stopped pages.new ≡ true }
    ensures went_on { OnOk result (P.stopped pages.new ≡ P.stopped pages.old) }
{
    for version in versions {
        if !change.takes(version.by, version.done) {
            continue;
        }
        change_version(objects, pages, change, version, steps)?;
    }
    Ok(())
}
