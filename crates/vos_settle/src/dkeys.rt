// What becomes of the dkeys below an object, of which a write names one.
ghost use Rattle.std.specs.Prelude.{◌≡◌, ◌<◌, ◌+◌, true, ℕ, IfOk, IfSome, OnOk, IsErrOf, ⊤};
ghost use Rattle.pmem_tree.specs.Calls.{IsShort};
ghost use Rattle.pmem_tree_base.specs.Calls.{Goes};
ghost use Rattle.pmem_tree_base.specs.declared.refusal.TreeNo.{TreeNo};
ghost use Rattle.vos_values.specs.Keys.{IsName};
ghost use Rattle.vos_levels.specs.Calls.{HasThing, OfThing};
ghost use Rattle.vos_levels.specs.Changes.{keeps};
ghost use Rattle.vos_levels.specs.Levels.{hung, hung_root};
ghost use Rattle.vos_path.specs.Calls.{HasAt, OfAt};
ghost use Rattle.vos_path.specs.Objects.{akey_level, below_owner, below_roots, dkey_level};
ghost use Rattle.vos_path.specs.Small.{BelowDkeyOnPathIsSmall, DkeysOnPathAreSmall};
ghost use Rattle.vos_settle.specs.Nodes.{DkeyTurn, DkeysTurn, Turned, below_dkey_freed, dkeys_freed};
ghost use Rattle.vos_settle.specs.Costs.{Lacks, Spends, below_dkey_cost, dkeys_cost, for_one};
ghost use Rattle.std.specs.Prelude.{Some as some_name, None as no_name};

use crate::akeys::change_akeys;
use crate::log::{change_entry, change_noted};
use crate::put::{are_roots, put_unless};
use crate::task::{Task, Which};
use base_types::key::Key;
use pmem_pages::pages::Pages;
use pmem_pages::steps::Steps;
use pmem_tree::TreeNo;
use pmem_tree::tree::Tree;
use std::sync::ledger::Ledger;
use vos_path::find::find_roots;
use vos_path::name::key_of;
use vos_values::values::{Roots, roots_value};

// The punch of a dkey.
fn change_punch<P: Pages, L: Ledger>(
    roots: Roots,
    pages: &mut P,
    task: Task,
    steps: &mut Steps<L>,
) -> Result<Roots, TreeNo>
    requires minor { task.at.minor < 64 }
    requires here { HasAt P.tells (below_owner akey_level) below_roots (P.blocks pages.old) roots (λ g. ⊤) }
    ensures changed { IfOk result (λ now. OfAt P.tells (below_owner akey_level) below_roots (P.blocks pages.old) roots (λ g. Turned (below_owner akey_level) below_roots (P.blocks pages.old) g (P.blocks pages.new) now (DkeyTurn task no_name))) }
    ensures no_block { IsErrOf result TreeNo.NoBlock → ⊥ }
    ensures too_much { IsErrOf result TreeNo.TooMuch → OfAt P.tells (below_owner akey_level) below_roots (P.blocks pages.old) roots (λ g. (d : ℕ) → BelowDkeyOnPathIsSmall d no_name g → Lacks (below_dkey_cost task.kind no_name (for_one d) 1) d (P.budget pages.old)) }
    ensures few_left { IsErrOf result TreeNo.TooMuch → OfAt P.tells (below_owner akey_level) below_roots (P.blocks pages.old) roots (λ g. (d : ℕ) → BelowDkeyOnPathIsSmall d no_name g → IsShort d (P.budget pages.new)) }
    ensures staged { OnOk result (OfAt P.tells (below_owner akey_level) below_roots (P.blocks pages.old) roots (λ g. (d : ℕ) → BelowDkeyOnPathIsSmall d no_name g → Spends (below_dkey_cost task.kind no_name (for_one d) 1) (P.budget pages.old) (P.budget pages.new))) }
    ensures root { keeps task.change ≡ true → IfOk result (λ now. now ≡ roots) }
    ensures committed { keeps task.change ≡ true → Spends (below_dkey_cost task.kind no_name 1 0) (P.budget pages.old) (P.budget pages.new) }
    ensures free { OnOk result (OfAt P.tells (below_owner akey_level) below_roots (P.blocks pages.old) roots (λ g. (P.budget pages.new).free ≡ (P.budget pages.old).free + below_dkey_freed task no_name g)) }
    ensures goes { Goes P.stopped P.count P.burns pages.old pages.new }
    ensures stopped { IsErrOf result TreeNo.Stopped → P.stopped pages.new ≡ true }
    ensures went_on { OnOk result (P.stopped pages.new ≡ P.stopped pages.old) }
{
    let log = change_entry(roots.log, pages, task.at, Which::Punch, task.change, steps)?;
    Ok(Roots {
        log,
        below: roots.below,
    })
}

// A write below an akey of a dkey, and then for an update its creation in the dkey's log.
fn change_below<P: Pages, L: Ledger>(
    roots: Roots,
    pages: &mut P,
    task: Task,
    akey: &Key,
    steps: &mut Steps<L>,
) -> Result<Roots, TreeNo>
    requires minor { task.at.minor < 64 }
    requires name { IsName akey.now }
    requires here { HasAt P.tells (below_owner akey_level) below_roots (P.blocks pages.old) roots (λ g. ⊤) }
    ensures changed { IfOk result (λ now. OfAt P.tells (below_owner akey_level) below_roots (P.blocks pages.old) roots (λ g. Turned (below_owner akey_level) below_roots (P.blocks pages.old) g (P.blocks pages.new) now (DkeyTurn task (some_name akey.now)))) }
    ensures no_block { IsErrOf result TreeNo.NoBlock → ⊥ }
    ensures too_much { IsErrOf result TreeNo.TooMuch → OfAt P.tells (below_owner akey_level) below_roots (P.blocks pages.old) roots (λ g. (d : ℕ) → BelowDkeyOnPathIsSmall d (some_name akey.now) g → Lacks (below_dkey_cost task.kind (some_name akey.now) (for_one d) 1) d (P.budget pages.old)) }
    ensures few_left { IsErrOf result TreeNo.TooMuch → OfAt P.tells (below_owner akey_level) below_roots (P.blocks pages.old) roots (λ g. (d : ℕ) → BelowDkeyOnPathIsSmall d (some_name akey.now) g → IsShort d (P.budget pages.new)) }
    ensures staged { OnOk result (OfAt P.tells (below_owner akey_level) below_roots (P.blocks pages.old) roots (λ g. (d : ℕ) → BelowDkeyOnPathIsSmall d (some_name akey.now) g → Spends (below_dkey_cost task.kind (some_name akey.now) (for_one d) 1) (P.budget pages.old) (P.budget pages.new))) }
    ensures root { keeps task.change ≡ true → IfOk result (λ now. now ≡ roots) }
    ensures committed { keeps task.change ≡ true → Spends (below_dkey_cost task.kind (some_name akey.now) 1 0) (P.budget pages.old) (P.budget pages.new) }
    ensures free { OnOk result (OfAt P.tells (below_owner akey_level) below_roots (P.blocks pages.old) roots (λ g. (P.budget pages.new).free ≡ (P.budget pages.old).free + below_dkey_freed task (some_name akey.now) g)) }
    ensures goes { Goes P.stopped P.count P.burns pages.old pages.new }
    ensures stopped { IsErrOf result TreeNo.Stopped → P.stopped pages.new ≡ true }
    ensures went_on { OnOk result (P.stopped pages.new ≡ P.stopped pages.old) }
{
    let mut akeys = Tree {
        kind: 3,
        root: roots.below,
    };
    change_akeys(&mut akeys, pages, task, akey, steps)?;
    let log = change_noted(roots.log, pages, task, steps)?;
    Ok(Roots {
        log,
        below: akeys.root,
    })
}

// A write of a dkey, or of an akey below it.
fn change_dkey<P: Pages, L: Ledger>(
    roots: Roots,
    pages: &mut P,
    task: Task,
    akey: &Option<Key>,
    steps: &mut Steps<L>,
) -> Result<Roots, TreeNo>
    requires minor { task.at.minor < 64 }
    requires name { IfSome akey.now IsName }
    requires here { HasAt P.tells (below_owner akey_level) below_roots (P.blocks pages.old) roots (λ g. ⊤) }
    ensures changed { IfOk result (λ now. OfAt P.tells (below_owner akey_level) below_roots (P.blocks pages.old) roots (λ g. Turned (below_owner akey_level) below_roots (P.blocks pages.old) g (P.blocks pages.new) now (DkeyTurn task akey.now))) }
    ensures no_block { IsErrOf result TreeNo.NoBlock → ⊥ }
    ensures too_much { IsErrOf result TreeNo.TooMuch → OfAt P.tells (below_owner akey_level) below_roots (P.blocks pages.old) roots (λ g. (d : ℕ) → BelowDkeyOnPathIsSmall d akey.now g → Lacks (below_dkey_cost task.kind akey.now (for_one d) 1) d (P.budget pages.old)) }
    ensures few_left { IsErrOf result TreeNo.TooMuch → OfAt P.tells (below_owner akey_level) below_roots (P.blocks pages.old) roots (λ g. (d : ℕ) → BelowDkeyOnPathIsSmall d akey.now g → IsShort d (P.budget pages.new)) }
    ensures staged { OnOk result (OfAt P.tells (below_owner akey_level) below_roots (P.blocks pages.old) roots (λ g. (d : ℕ) → BelowDkeyOnPathIsSmall d akey.now g → Spends (below_dkey_cost task.kind akey.now (for_one d) 1) (P.budget pages.old) (P.budget pages.new))) }
    ensures root { keeps task.change ≡ true → IfOk result (λ now. now ≡ roots) }
    ensures committed { keeps task.change ≡ true → Spends (below_dkey_cost task.kind akey.now 1 0) (P.budget pages.old) (P.budget pages.new) }
    ensures free { OnOk result (OfAt P.tells (below_owner akey_level) below_roots (P.blocks pages.old) roots (λ g. (P.budget pages.new).free ≡ (P.budget pages.old).free + below_dkey_freed task akey.now g)) }
    ensures goes { Goes P.stopped P.count P.burns pages.old pages.new }
    ensures stopped { IsErrOf result TreeNo.Stopped → P.stopped pages.new ≡ true }
    ensures went_on { OnOk result (P.stopped pages.new ≡ P.stopped pages.old) }
{
    match akey {
        Some(akey) => change_below(roots, pages, task, akey, steps),
        None => change_punch(roots, pages, task, steps),
    }
}

/// Settles or prunes a write of the dkey of a name, or of an akey below it, where they are there. The dkey
/// stays, also where nothing is left below it.
///
/// # Errors
///
/// As `change_values`.
pub fn change_dkeys<P: Pages, L: Ledger>(
    dkeys: &mut Tree,
    pages: &mut P,
    task: Task,
    name: &Key,
    akey: &Option<Key>,
    steps: &mut Steps<L>,
) -> Result<(), TreeNo>
    requires kind { dkeys.old.kind ≡ 2 }
    requires minor { task.at.minor < 64 }
    requires name { IsName name.now }
    requires akey { IfSome akey.now IsName }
    requires here { HasThing P.tells (hung dkey_level) hung_root (P.blocks pages.old) dkeys.old.root (λ g. ⊤) }
    ensures changed { OnOk result (OfThing P.tells (hung dkey_level) hung_root (P.blocks pages.old) dkeys.old.root (λ g. Turned (hung dkey_level) hung_root (P.blocks pages.old) g (P.blocks pages.new) dkeys.new.root (DkeysTurn task name.now akey.now))) }
    ensures kind { dkeys.new.kind ≡ 2 }
    ensures no_block { IsErrOf result TreeNo.NoBlock → ⊥ }
    ensures too_much { IsErrOf result TreeNo.TooMuch → OfThing P.tells (hung dkey_level) hung_root (P.blocks pages.old) dkeys.old.root (λ g. (d : ℕ) → DkeysOnPathAreSmall d (some_name name.now) akey.now g → Lacks (dkeys_cost task.kind akey.now (for_one d) 1) d (P.budget pages.old)) }
    ensures few_left { IsErrOf result TreeNo.TooMuch → OfThing P.tells (hung dkey_level) hung_root (P.blocks pages.old) dkeys.old.root (λ g. (d : ℕ) → DkeysOnPathAreSmall d (some_name name.now) akey.now g → IsShort d (P.budget pages.new)) }
    ensures staged { OnOk result (OfThing P.tells (hung dkey_level) hung_root (P.blocks pages.old) dkeys.old.root (λ g. (d : ℕ) → DkeysOnPathAreSmall d (some_name name.now) akey.now g → Spends (dkeys_cost task.kind akey.now (for_one d) 1) (P.budget pages.old) (P.budget pages.new))) }
    ensures root { dkeys.new.root ≡ dkeys.old.root }
    ensures committed { keeps task.change ≡ true → Spends (dkeys_cost task.kind akey.now 1 0) (P.budget pages.old) (P.budget pages.new) }
    ensures free { OnOk result (OfThing P.tells (hung dkey_level) hung_root (P.blocks pages.old) dkeys.old.root (λ g. (P.budget pages.new).free ≡ (P.budget pages.old).free + dkeys_freed task name.now akey.now g)) }
    ensures goes { Goes P.stopped P.count P.burns pages.old pages.new }
    ensures stopped { IsErrOf result TreeNo.Stopped → P.stopped pages.new ≡ true }
    ensures went_on { OnOk result (P.stopped pages.new ≡ P.stopped pages.old) }
{
    let key = key_of(name);
    let Some(was) = find_roots(*dkeys, pages, &key, steps)? else {
        return Ok(());
    };
    let now = change_dkey(was, pages, task, akey, steps)?;
    let had = are_roots(was, now);
    put_unless(dkeys, pages, &key, &roots_value(now), had, steps)
}
