// The order in which entries of a log stand.
ghost use Rattle.pmem_pages.specs.Blocks.{Blocks};
ghost use Rattle.pmem_pages.specs.Owners.{Holds};
ghost use Rattle.vos_moments.specs.vos_levels.Levels.{things};
ghost use Rattle.vos_moments.specs.vos_levels.Moments.{Rise};
ghost use Rattle.vos_ilog.specs.Logs.{Log as LogOf, log_owner, moment_of};

/// Entries of a log stand in the order of their moments, no two of one moment: so the last that passes a
/// test is the one of the greatest epoch and number.
pub fn logs_rise()
    ensures { (m : Blocks) (g : LogOf) → Holds log_owner m g → Rise moment_of (things g) }
{}
