// The order in which extents stand, and what the greatest of them is.
ghost use Rattle.pmem_pages.specs.Blocks.{Blocks};
ghost use Rattle.pmem_pages.specs.Owners.{Holds};
ghost use Rattle.vos_moments.specs.vos_levels.Levels.{things};
ghost use Rattle.std.specs.Prelude.{◌≡◌, Bool, false, List, Some, None};
ghost use Rattle.std.specs.List.{list_any};
ghost use Rattle.vos_extent.specs.declared.extent.ExtentVersion.{ExtentVersion as ExtentOf};
ghost use Rattle.vos_extent.specs.Extents.{Extents as ExtentsOf, Rise, extent_owner};
ghost use Rattle.vos_extent.specs.Shown.{IsGreatest, greatest};

/// Extents stand in the order of their first indexes, then of their epochs and numbers, no two of one
/// place.
pub fn extents_rise()
    ensures { (m : Blocks) (g : ExtentsOf) → Holds extent_owner m g → Rise (things g) }
{}

/// The greatest of those that pass a test is one of them, and none of them is later; there is none just
/// where none passes.
pub fn greatest_is_last()
    ensures some { (test : ExtentOf → Bool) (vs : List ExtentOf) (v : ExtentOf) → greatest test vs ≡ Some v → IsGreatest test vs v }
    ensures none { (test : ExtentOf → Bool) (vs : List ExtentOf) → greatest test vs ≡ None → list_any test vs ≡ false }
{}
