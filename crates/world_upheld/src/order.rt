// The order of real time where snapshots are made and containers aggregated.

ghost use Rattle.world_upheld.specs.order.Answers.{AnswersLieBehind};
ghost use Rattle.world_upheld.specs.order.Clients.{ClientsKeepOrder};
ghost use Rattle.world_upheld.specs.order.Guards.{AccessesLieBehind, ReadsAreAbove, WritesAreAbove};
ghost use Rattle.world_upheld.specs.order.Known.{LinesAreKnown, ReadersAreBorneFirsts, WritersAreBorneFirsts};
ghost use Rattle.world_upheld.specs.order.Passing.{SweepingKeepsOrder, TargetsKeepOrder};
ghost use Rattle.world_upheld.specs.order.Serving.{OthersAreUnfrozen, ServedLieBehind};
ghost use Rattle.world_upheld.specs.order.Stored.{HappeningsStoreBehind};

/// Says how the order of real time (`world_standing`) stands where containers were aggregated, and clients read
/// at snapshots. An access that is above what was aggregated, and that no later write refuses, lies behind
/// what was written there and answered before: either the version is there still, or it is at or below the
/// aggregated-to epoch, and so no higher than the access. Writes that aren't refused are above it, since the
/// floor guards it; and so is a read that isn't refused, unless a snapshot is frozen at its very epoch. None
/// is, where the read's epoch was issued to its attempt, and what is frozen was made by attempts to which its
/// epochs were issued. So a read that is served at no snapshot lies behind what was answered before. Of
/// committed attempts that lines tell of, writes are decided and reads were served, also at snapshots; and
/// with what is asked the first epoch of its command goes, unless at a snapshot. So whatever becomes of a
/// target keeps the order: what targets keep stored, and what they served at no snapshot, lies behind what
/// was answered before. And what clients do keeps the order, where it keeps their conversations and epochs.
pub fn laws_of_order_making()
    ensures behind { AccessesLieBehind }
    ensures above { WritesAreAbove }
    ensures reads { ReadsAreAbove }
    ensures served { ServedLieBehind }
    ensures answers { AnswersLieBehind }
    ensures unfrozen { OthersAreUnfrozen }
    ensures told { LinesAreKnown }
    ensures readers { ReadersAreBorneFirsts }
    ensures writers { WritersAreBorneFirsts }
    ensures stores { HappeningsStoreBehind }
    ensures targets { TargetsKeepOrder }
    ensures clients { ClientsKeepOrder }
    ensures swept { SweepingKeepsOrder }
{}
