// What a cell holds below an epoch, by the newest version that touches it.
ghost use Rattle.std.specs.Prelude.{◌≡◌, ◌++◌, ℕ, Bool, false, List, None};
ghost use Rattle.std.specs.List.{list_any};
ghost use Rattle.daos_model.specs.Cells.{value_at};
ghost use Rattle.daos_model.specs.Durables.{version_key};
ghost use Rattle.daos_model.specs.Ordered.{in_order};
ghost use Rattle.daos_model.specs.Versions.{map_below};
ghost use Rattle.daos_model.specs.declared.cell.Cell.{Cell as CellOf};
ghost use Rattle.daos_model.specs.declared.durable.Version.{Version as VersionOf};
ghost use Rattle.vos_newest.specs.Newest.{later_of, newest, speaks, told};

/// Below an epoch a cell holds what the newest version says that is done, below the epoch, and touches the
/// cell. The newest is the one of the greatest epoch, number and object; of those that have them it is the
/// last of the list.
pub fn cells_hold_the_newest()
    ensures { (vs : List VersionOf) (e : ℕ) (c : CellOf) → value_at (map_below (in_order version_key vs) e) c ≡ told c (newest version_key (speaks e c) vs) }
{}

/// The newest of two lists, one behind the other, is the later of the newest of each; where none passes
/// there is none.
pub fn newest_of_parts()
    ensures behind { (test : VersionOf → Bool) (vs ws : List VersionOf) → newest version_key test (vs ++ ws) ≡ later_of version_key (newest version_key test vs) (newest version_key test ws) }
    ensures none { (test : VersionOf → Bool) (vs : List VersionOf) → list_any test vs ≡ false → newest version_key test vs ≡ None }
{}
