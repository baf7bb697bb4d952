// Changes that own a pool while they run.
ghost use Rattle.std.specs.Prelude.{◌≡◌, ◌≤◌, ◌+◌, ◌<◌, ◌^◌, true, false, IsSome, MatchResult, OnOk};
ghost use Rattle.std.specs.Option.{ForSome};
ghost use Rattle.base_types.specs.Epochs.{restart_floor};
ghost use Rattle.base_types.specs.declared.outcome.FloorWhy.{FloorWhy};
ghost use Rattle.daos_model.specs.declared.durable.Durable.{Durable};
ghost use Rattle.daos_model.specs.Blocks.{blocks};
ghost use Rattle.daos_model.specs.Changes.{discarded, prepared, pruned, settled};
ghost use Rattle.daos_model.specs.Durables.{is_enlisted};
ghost use Rattle.vos_pool_site.specs.Site.{site_durable, site_may, site_state};
ghost use Rattle.vos_store.specs.Answers.{PrepareWhy, discards};
ghost use Rattle.vos_store.specs.Calls.{Answers, CutDiscard, CutPrune, Finds, IfRunning, Makes, MakesPartly, Opens, Turns, UsesFuse, going_count};
ghost use Rattle.vos_store.specs.Conditions.{CanPrepare, CanPrune, CanSettle, IsPreparable, IsStep};
ghost use Rattle.vos_store.specs.Refusals.{always_stop, discard_open, discard_stop, prepare_stop, reopen_foreign, says};

use base_outside::region::Region;
use base_types::entry::{Entry, Settle};
use base_types::epoch::Epoch;
use base_types::id::{AttemptId, ContId};
use base_types::operation::MinorWrite;
use std::alloc::Global;
use vos_pool_again::again::open_again;
use vos_pool_changes::discard::discard as discard_held;
use vos_pool_changes::prepare::prepare as prepare_held;
use vos_pool_changes::prune::prune as prune_held;
use vos_pool_changes::settle::settle as settle_held;
use vos_pool_site::closing::close;
use vos_pool_site::site::Site;
use vos_store::refusal::{DiscardNo, PrepareNo, ReopenNo, Stopped};

/// Adds an entry and its writes to a pool, unsettled.
pub(crate) fn prepare<R: Region>(
    site: Site<R>,
    asked: (&Entry, &[MinorWrite]),
) -> (Site<R>, Result<(), PrepareNo>)
    requires form { IsPreparable (site_state R.count R.burns R.can_burn site) asked.0.now asked.1.now }
    requires here { IfRunning (site_state R.count R.burns R.can_burn site) (ForSome (site_durable R.tells R.extent R.image site) (CanPrepare (site_state R.count R.burns R.can_burn site) asked.0.now asked.1.now)) }
    ensures call { Turns (blocks asked.entry.1.now) prepare_stop result.1 (site_state R.count R.burns R.can_burn site) (site_state R.count R.burns R.can_burn result.0) }
    ensures fuse { UsesFuse prepare_stop result.1 (site_state R.count R.burns R.can_burn site) (site_state R.count R.burns R.can_burn result.0) }
    ensures space { MatchResult result.1 (λ _. blocks asked.entry.1.now ≤ (site_state R.count R.burns R.can_burn site).free)
        (PrepareWhy (blocks asked.entry.1.now) (site_state R.count R.burns R.can_burn site).free) }
    ensures kept { Makes (site_state R.count R.burns R.can_burn site).stopped prepare_stop (prepared asked.entry.0.now asked.entry.1.now) result.1
        (site_durable R.tells R.extent R.image site) (site_durable R.tells R.extent R.image result.0) (site_may R.tells R.extent R.may_leave site) (site_may R.tells R.extent R.may_leave result.0) }
{
    match site {
        Site::Open(held) => {
            let (held, prepared) = prepare_held(held, asked.0, asked.1);
            (Site::Open(held), prepared)
        }
        Site::Closed(closed) => (Site::Closed(closed), Err(PrepareNo::Stopped)),
    }
}

/// A step of an attempt on a pool.
pub(crate) fn settle<R: Region>(
    site: Site<R>,
    asked: (AttemptId, Settle),
) -> (Site<R>, Result<(), Stopped>)
    requires form { IsStep asked.1 }
    requires here { IfRunning (site_state R.count R.burns R.can_burn site) (ForSome (site_durable R.tells R.extent R.image site) (CanSettle asked.0 asked.1)) }
    ensures call { Turns 0 always_stop result.1 (site_state R.count R.burns R.can_burn site) (site_state R.count R.burns R.can_burn result.0) }
    ensures fuse { UsesFuse always_stop result.1 (site_state R.count R.burns R.can_burn site) (site_state R.count R.burns R.can_burn result.0) }
    ensures kept { Makes (site_state R.count R.burns R.can_burn site).stopped always_stop (settled asked.0 asked.1) result.1
        (site_durable R.tells R.extent R.image site) (site_durable R.tells R.extent R.image result.0) (site_may R.tells R.extent R.may_leave site) (site_may R.tells R.extent R.may_leave result.0) }
{
    match site {
        Site::Open(held) => {
            let (held, settled) = settle_held(held, asked.0, asked.1);
            (Site::Open(held), settled)
        }
        Site::Closed(closed) => (Site::Closed(closed), Err(Stopped)),
    }
}

/// Aggregates a container of a pool up to an epoch, by the aggregation of this number.
pub(crate) fn prune<R: Region>(
    site: Site<R>,
    asked: (ContId, Epoch, u32),
) -> (Site<R>, Result<(), Stopped>)
    requires { IfRunning (site_state R.count R.burns R.can_burn site) (ForSome (site_durable R.tells R.extent R.image site) (CanPrune asked.0 asked.1)) }
    ensures call { Turns 0 always_stop result.1 (site_state R.count R.burns R.can_burn site) (site_state R.count R.burns R.can_burn result.0) }
    ensures fuse { UsesFuse always_stop result.1 (site_state R.count R.burns R.can_burn site) (site_state R.count R.burns R.can_burn result.0) }
    ensures space { OnOk result.1 (ForSome (site_durable R.tells R.extent R.image site) (λ d.
        (site_state R.count R.burns R.can_burn site).free + going_count asked.0 asked.1 d ≤ (site_state R.count R.burns R.can_burn result.0).free)) }
    ensures kept { MakesPartly (site_state R.count R.burns R.can_burn site).stopped always_stop (pruned asked.0 asked.1 asked.2) (CutPrune asked.0 asked.1 asked.2) result.1
        (site_durable R.tells R.extent R.image site) (site_durable R.tells R.extent R.image result.0) (site_may R.tells R.extent R.may_leave site) (site_may R.tells R.extent R.may_leave result.0) }
{
    match site {
        Site::Open(held) => {
            let (held, pruned) = prune_held(held, asked.0, asked.1, asked.2);
            (Site::Open(held), pruned)
        }
        Site::Closed(closed) => (Site::Closed(closed), Err(Stopped)),
    }
}

/// Removes a container's versions with epochs from one to another from a pool.
pub(crate) fn discard<R: Region>(
    site: Site<R>,
    asked: (ContId, Epoch, Epoch),
) -> (Site<R>, Result<(), DiscardNo>)
    requires { IfRunning (site_state R.count R.burns R.can_burn site) (ForSome (site_durable R.tells R.extent R.image site) (λ d. is_enlisted d asked.0 ≡ true)) }
    ensures call { Turns 0 discard_stop result.1 (site_state R.count R.burns R.can_burn site) (site_state R.count R.burns R.can_burn result.0) }
    ensures fuse { UsesFuse discard_stop result.1 (site_state R.count R.burns R.can_burn site) (site_state R.count R.burns R.can_burn result.0) }
    ensures answer { Answers discard_open result.1 (discards asked.0 asked.1 asked.2) (site_durable R.tells R.extent R.image site) }
    ensures kept { MakesPartly (site_state R.count R.burns R.can_burn site).stopped discard_stop (discarded asked.0 asked.1 asked.2) (CutDiscard asked.0 asked.1 asked.2) result.1
        (site_durable R.tells R.extent R.image site) (site_durable R.tells R.extent R.image result.0) (site_may R.tells R.extent R.may_leave site) (site_may R.tells R.extent R.may_leave result.0) }
{
    match site {
        Site::Open(held) => {
            let (held, discarded) = discard_held(held, asked.0, asked.1, asked.2);
            (Site::Open(held), discarded)
        }
        Site::Closed(closed) => (Site::Closed(closed), Err(DiscardNo::Stopped)),
    }
}

/// Opens a pool again, by a restart of this number.
pub(crate) fn reopen<R: Region>(
    site: Site<R>,
    asked: (Global, u32),
) -> (Site<R>, Result<(), ReopenNo>)
    requires { ForSome (site_durable R.tells R.extent R.image site) (λ _. (x : Durable) → site_may R.tells R.extent R.may_leave site x → x.incarnation + 1 < 2 ^ 64) }
    ensures call { Opens result.1 (site_state R.count R.burns R.can_burn site) (site_state R.count R.burns R.can_burn result.0) }
    ensures kept { Finds result.1 (site_durable R.tells R.extent R.image site) (site_durable R.tells R.extent R.image result.0)
        (site_may R.tells R.extent R.may_leave site) (site_may R.tells R.extent R.may_leave result.0) }
    ensures floor { OnOk result.1 (ForSome (site_durable R.tells R.extent R.image result.0) (λ d. (site_state R.count R.burns R.can_burn result.0).opening.0.0 ≡ restart_floor d.lease)) }
    ensures why { OnOk result.1 ((site_state R.count R.burns R.can_burn result.0).opening.1 ≡ FloorWhy.Restart asked.1) }
    ensures free { IsSome (site_durable R.tells R.extent R.image site) → (site_state R.count R.burns R.can_burn site).free ≤ (site_state R.count R.burns R.can_burn result.0).free }
    ensures native { IsSome (site_durable R.tells R.extent R.image site) → says reopen_foreign result.1 ≡ false }
{
    open_again(asked.0, close(site), asked.1)
}
