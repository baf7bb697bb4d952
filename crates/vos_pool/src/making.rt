// A pool is made of a region, and gives it back.
ghost use Rattle.std.specs.Prelude.{◌≡◌, IfErr, IfOk};
ghost use Rattle.daos_model.specs.declared.durable.Durable.{Durable};
ghost use Rattle.vos_pool.specs.Causes.{open_cause};
ghost use Rattle.vos_pool.specs.Made.{IsMadeOf, IsPoolSize, asked_of};
ghost use Rattle.vos_pool.specs.Pool.{pool_durable, pool_may, pool_region, pool_state, pool_target};
ghost use Rattle.vos_pool_held.specs.vos_pool_base.Pool.{MayBeFound};
ghost use Rattle.vos_pool_opening.specs.Opening.{HasNotBegun};

use crate::cause::{PoolNo, pool_cause};
use crate::pool::Pool;
use base_outside::region::Region;
use base_types::epoch::TargetId;
use std::alloc::Global;
use vos_pool_opening::beginning::{Asked, Beginning};
use vos_pool_opening::opening::open_held;
use vos_pool_site::closing::close;
use vos_pool_site::site::Site;

impl<R: Region> Pool<R> {
    /// Makes a pool of a region, for a target of so many. A blank region is formatted; any other is a pool already: what was
    /// cut in it is rolled back, and it is checked.
    ///
    /// # Errors
    ///
    /// `Foreign` gives the byte at fault: it comes exactly where the region isn't blank and isn't of the layout. `Shape` comes
    /// exactly where it was made for another number of targets. So far as no read failed and memory was there. `Stopped` comes
    /// only where a count of the region rose in this call.
    pub fn make(
        alloc: Global,
        region: R,
        target: TargetId,
        targets: u8,
    ) -> Result<Pool<R>, PoolNo<R>>
        requires size { IsPoolSize (R.extent region) }
        ensures made { IfOk result (λ p. IsMadeOf R.tells R.extent R.count R.burns R.image target targets region (pool_state R.count R.burns R.can_burn p) (pool_durable R.tells R.extent R.image p) (pool_region p)) }
        ensures target { IfOk result (λ p. pool_target p ≡ target) }
        ensures refused { IfErr result (λ no. HasNotBegun R.tells R.extent R.count R.burns R.image R.may_leave (asked_of target targets) region no.region (open_cause no.cause)) }
    {
        let asked = Asked {
            target,
            targets,
            beginning: Beginning::Made,
        };
        match open_held(alloc, region, &asked) {
            Ok(held) => Ok(Pool {
                alloc,
                site: Site::Open(held),
            }),
            Err(no) => Err(PoolNo {
                region: no.region,
                cause: pool_cause(no.cause),
            }),
        }
    }

    /// Its region. What may be left of that is what its next opening may find.
    pub fn into_region(self) -> R
        ensures region { result ≡ pool_region self }
        ensures found { (x : Durable) → MayBeFound R.tells (pool_target self) (R.extent result) (R.may_leave result) x → pool_may R.tells R.extent R.may_leave self x }
    {
        let Pool {
            alloc: _alloc,
            site,
        } = self;
        close(site).region
    }
}
