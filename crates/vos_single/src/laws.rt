// The order in which versions stand.
ghost use Rattle.pmem_pages.specs.Blocks.{Blocks};
ghost use Rattle.pmem_pages.specs.Owners.{Holds};
ghost use Rattle.vos_moments.specs.vos_levels.Levels.{things};
ghost use Rattle.vos_moments.specs.vos_levels.Moments.{Rise};
ghost use Rattle.vos_single.specs.Singles.{Singles as SinglesOf, single_owner, moment_of};

/// Versions stand in the order of their moments, no two of one moment: so the last below an epoch is the
/// one of the greatest epoch and number.
pub fn versions_rise()
    ensures { (m : Blocks) (g : SinglesOf) → Holds single_owner m g → Rise moment_of (things g) }
{}
