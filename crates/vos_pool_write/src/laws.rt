// Lists to which several come, in order.
ghost use Rattle.vos_pool_write.specs.Lists.{EntriesComeInOrder, VersionsComeInOrder};
ghost use Rattle.vos_pool_write.specs.Prepared.{EntriesPrepare};

/// An entry that comes is put in order among those in order, and so are several versions.
pub fn they_come_in_order()
    ensures entries { EntriesComeInOrder }
    ensures versions { VersionsComeInOrder }
{}

/// Versions that came without their entry count for nothing. Where it comes behind them, what is kept is what preparing
/// it makes, and every version counts.
pub fn entries_prepare_their_writes()
    ensures { EntriesPrepare }
{}
