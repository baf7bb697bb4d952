// An opening is counted.
ghost use Rattle.std.specs.Prelude.{◌≡◌, IsTrue, List, OnOk, Some};
ghost use Rattle.base_types.specs.declared.entry.Entry.{Entry};
ghost use Rattle.daos_model.specs.declared.durable.Version.{Version};
ghost use Rattle.pmem_pages.specs.Blocks.{Stops};
ghost use Rattle.vos_pool_held.specs.vos_pool_base.Pool.{HasRoots, kept_of, may_of};
ghost use Rattle.vos_pool_held.specs.vos_pool_base.Tidy.{IfTidy, LeavesBut};
ghost use Rattle.vos_pool_held.specs.vos_pool_base.vos_tables.Kept.{kept_with};
ghost use Rattle.vos_pool_held.specs.vos_pool_base.vos_tables.Tables.{AreNext};
ghost use Rattle.vos_pool_opening.specs.Beginning.{begun};
ghost use Rattle.vos_store.specs.Calls.{Makes};
ghost use Rattle.vos_store.specs.Refusals.{always_stop};

use crate::beginning::{Beginning, next_incarnation};
use base_outside::region::Region;
use vos_pool_base::below::places::codec::Counters;
use vos_pool_base::below::tables::table::Tables;
use vos_pool_base::opened::Opened;
use vos_store::refusal::Stopped;

// The counters with another incarnation.
fn counters_with(tables: &Tables, incarnation: u64) -> Counters
    ensures counters { result ≡ record { incarnation = incarnation; lease = tables.now.header.lease; objects = tables.now.header.objects; entries = tables.now.header.entries } }
    ensures next { AreNext tables.now result }
    ensures roots { HasRoots tables.now result }
{
    let _next = tables.plan_reopening();
    Counters {
        incarnation,
        lease: tables.lease(),
        objects: tables.objects(),
        entries: tables.entries(),
    }
}

/// Counts an opening of a pool, whose region wasn't blank, by one commit.
///
/// # Errors
///
/// `Stopped` comes only where a count of the region rose in this call.
pub(crate) fn count_opening<R: Region>(
    opened: &mut Opened<R>,
    beginning: Beginning,
) -> Result<(), Stopped>
    ensures begun { Makes opened.old.blocks.undo.stopped always_stop (begun beginning) result (kept_of R.tells R.extent R.image opened.old) (kept_of R.tells R.extent R.image opened.new)
        (may_of R.tells R.extent R.may_leave opened.old) (may_of R.tells R.extent R.may_leave opened.new) }
    ensures found { OnOk result (IsTrue R.tells → (vs : List Version) → (es : List Entry) → kept_of R.tells R.extent R.image opened.old ≡ Some (kept_with opened.old.table vs es)
        → kept_of R.tells R.extent R.image opened.new ≡ Some (kept_with opened.new.table vs es)) }
    ensures left { LeavesBut R.tells R.extent R.may_leave 0 opened.old opened.new }
    ensures tidy { OnOk result (IfTidy R.tells R.extent R.image opened.old → IfTidy R.tells R.extent R.image opened.new) }
    ensures free { opened.new.blocks.map ≡ opened.old.blocks.map }
    ensures size { R.extent opened.new.blocks.undo.region ≡ R.extent opened.old.blocks.undo.region }
    ensures stops { Stops opened.old.blocks.undo.stopped opened.new.blocks.undo.stopped (R.count opened.old.blocks.undo.region) (R.count opened.new.blocks.undo.region)
        (R.burns opened.old.blocks.undo.region) (R.burns opened.new.blocks.undo.region) result }
{
    let incarnation = opened.tables.incarnation();
    let next = next_incarnation(beginning, false, incarnation);
    let counters = counters_with(&opened.tables, next);
    opened.count(counters)
}
