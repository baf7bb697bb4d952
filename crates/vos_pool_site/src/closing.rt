// A pool is closed.
ghost use Rattle.std.specs.Prelude.{◌≡◌, true};
ghost use Rattle.daos_model.specs.declared.durable.Durable.{Durable};
ghost use Rattle.vos_pool_site.specs.Site.{closed_state, site_durable, site_may, site_region, site_state, site_target};

use crate::closed::Closed;
use crate::site::Site;
use base_outside::region::Region;
use vos_pool_base::opened::Opened;
use vos_pool_held::held::Held;

// An open pool is closed. Nothing is written.
fn close_held<R: Region>(held: Held<R>) -> Closed<R>
    ensures region { result.region ≡ held.opened.blocks.undo.region }
    ensures free { result.free ≡ held.free }
    ensures floor { result.floor ≡ held.floor }
    ensures why { result.why ≡ held.why }
    ensures target { result.target ≡ held.target }
    ensures targets { result.targets ≡ held.targets }
    ensures target_is { held.opened.table.header.target ≡ held.target }
{
    let Held {
        opened,
        free,
        floor,
        why,
        target,
        targets,
        ..
    } = held;
    let Opened {
        blocks,
        tables: _tables,
    } = opened;
    Closed {
        region: blocks.into_undo().into_region(),
        free,
        floor,
        why,
        target,
        targets,
    }
}

/// Closes a pool, open or not. Nothing is written, and the next opening may find the same.
pub fn close<R: Region>(site: Site<R>) -> Closed<R>
    ensures region { result.region ≡ site_region site }
    ensures target { result.target ≡ site_target site }
    ensures found { (x : Durable) → site_may R.tells R.extent R.may_leave (Site.Closed result) x → site_may R.tells R.extent R.may_leave site x }
    ensures durable { site_durable R.tells R.extent R.image (Site.Closed result) ≡ site_durable R.tells R.extent R.image site }
    ensures state { closed_state R.count R.burns R.can_burn result ≡ record (site_state R.count R.burns R.can_burn site) { stopped = true } }
{
    match site {
        Site::Open(held) => close_held(held),
        Site::Closed(closed) => closed,
    }
}
