// What becomes of the akeys below a dkey, of which a write names one.
ghost use Rattle.std.specs.Prelude.{◌≡◌, ◌<◌, ◌+◌, true, ℕ, OnOk, IsErrOf, ⊤};
ghost use Rattle.pmem_tree.specs.Calls.{IsShort};
ghost use Rattle.pmem_tree_base.specs.Calls.{Goes};
ghost use Rattle.pmem_tree_base.specs.declared.refusal.TreeNo.{TreeNo};
ghost use Rattle.vos_values.specs.Keys.{IsName};
ghost use Rattle.vos_levels.specs.Calls.{HasThing, OfThing};
ghost use Rattle.vos_levels.specs.Changes.{keeps};
ghost use Rattle.vos_levels.specs.Levels.{hung, hung_root};
ghost use Rattle.vos_path.specs.Objects.{akey_level};
ghost use Rattle.std.specs.Prelude.{Some as some_name};
ghost use Rattle.vos_path.specs.Small.{AkeysOnPathAreSmall};
ghost use Rattle.vos_settle.specs.Nodes.{AkeysTurn, Turned, akeys_freed};
ghost use Rattle.vos_settle.specs.Costs.{Lacks, Spends, akeys_cost, for_one};

use crate::put::{are_akey_roots, put_unless};
use crate::task::Task;
use crate::values::change_values;
use base_types::key::Key;
use pmem_pages::pages::Pages;
use pmem_pages::steps::Steps;
use pmem_tree::TreeNo;
use pmem_tree::tree::Tree;
use std::sync::ledger::Ledger;
use vos_path::find::find_akey;
use vos_path::name::key_of;
use vos_values::values::akey_value;

/// Settles or prunes a write in the akey of a name, if it is there. The akey stays, also where nothing is
/// left below it.
///
/// # Errors
///
/// As `change_values`.
pub fn change_akeys<P: Pages, L: Ledger>(
    akeys: &mut Tree,
    pages: &mut P,
    task: Task,
    name: &Key,
    steps: &mut Steps<L>,
) -> Result<(), TreeNo>
    requires kind { akeys.old.kind ≡ 3 }
    requires minor { task.at.minor < 64 }
    requires name { IsName name.now }
    requires here { HasThing P.tells (hung akey_level) hung_root (P.blocks pages.old) akeys.old.root (λ g. ⊤) }
    ensures changed { OnOk result (OfThing P.tells (hung akey_level) hung_root (P.blocks pages.old) akeys.old.root (λ g. Turned (hung akey_level) hung_root (P.blocks pages.old) g (P.blocks pages.new) akeys.new.root (AkeysTurn task name.now))) }
    ensures kind { akeys.new.kind ≡ 3 }
    ensures no_block { IsErrOf result TreeNo.NoBlock → ⊥ }
    ensures too_much { IsErrOf result TreeNo.TooMuch → OfThing P.tells (hung akey_level) hung_root (P.blocks pages.old) akeys.old.root (λ g. (d : ℕ) → AkeysOnPathAreSmall d (some_name name.now) g → Lacks (akeys_cost task.kind (for_one d) 1) d (P.budget pages.old)) }
    ensures few_left { IsErrOf result TreeNo.TooMuch → OfThing P.tells (hung akey_level) hung_root (P.blocks pages.old) akeys.old.root (λ g. (d : ℕ) → AkeysOnPathAreSmall d (some_name name.now) g → IsShort d (P.budget pages.new)) }
    ensures staged { OnOk result (OfThing P.tells (hung akey_level) hung_root (P.blocks pages.old) akeys.old.root (λ g. (d : ℕ) → AkeysOnPathAreSmall d (some_name name.now) g → Spends (akeys_cost task.kind (for_one d) 1) (P.budget pages.old) (P.budget pages.new))) }
    ensures root { akeys.new.root ≡ akeys.old.root }
    ensures committed { keeps task.change ≡ true → Spends (akeys_cost task.kind 1 0) (P.budget pages.old) (P.budget pages.new) }
    ensures free { OnOk result (OfThing P.tells (hung akey_level) hung_root (P.blocks pages.old) akeys.old.root (λ g. (P.budget pages.new).free ≡ (P.budget pages.old).free + akeys_freed task name.now g)) }
    ensures goes { Goes P.stopped P.count P.burns pages.old pages.new }
    ensures stopped { IsErrOf result TreeNo.Stopped → P.stopped pages.new ≡ true }
    ensures went_on { OnOk result (P.stopped pages.new ≡ P.stopped pages.old) }
{
    let key = key_of(name);
    let Some(was) = find_akey(*akeys, pages, &key, steps)? else {
        return Ok(());
    };
    let now = change_values(was, pages, task, steps)?;
    let had = are_akey_roots(was, now);
    put_unless(akeys, pages, &key, &akey_value(now), had, steps)
}
