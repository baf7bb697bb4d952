// The fuse of a pool.
ghost use Rattle.std.specs.Prelude.{◌≡◌};
ghost use Rattle.daos_model.specs.declared.durable.Durable.{Durable};
ghost use Rattle.vos_pool_site.specs.Site.{site_durable, site_may, site_state};
ghost use Rattle.vos_store.specs.Calls.{SetsFuse};

use crate::pool::Pool;
use base_outside::region::Fusible;
use vos_pool_rows::fusing::set_fuse;
use vos_pool_site::closed::Closed;
use vos_pool_site::site::Site;
use vos_store::store::Fuse;

// Sets the fuse of the region of a closed pool.
fn set_closed_fuse<R: Fusible>(closed: &mut Closed<R>, k: u32)
    ensures state { SetsFuse k (site_state R.count R.burns R.can_burn (Site.Closed closed.old)) (site_state R.count R.burns R.can_burn (Site.Closed closed.new)) }
    ensures durable { site_durable R.tells R.extent R.image (Site.Closed closed.new) ≡ site_durable R.tells R.extent R.image (Site.Closed closed.old) }
    ensures left { (x : Durable) → site_may R.tells R.extent R.may_leave (Site.Closed closed.new) x → site_may R.tells R.extent R.may_leave (Site.Closed closed.old) x }
{
    closed.region.set_fuse(k);
}

impl<R: Fusible> Fuse for Pool<R> {
    fn fuse(&mut self, k: u32) {
        match &mut self.site {
            Site::Open(held) => set_fuse(held, k),
            Site::Closed(closed) => set_closed_fuse(closed, k),
        }
    }
}
