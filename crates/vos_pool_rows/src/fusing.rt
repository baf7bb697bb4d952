// The fuse of a pool's region.
ghost use Rattle.std.specs.Prelude.{◌≡◌};
ghost use Rattle.base_outside.specs.Images.{SameButFuse};
ghost use Rattle.daos_model.specs.declared.durable.Durable.{Durable};
ghost use Rattle.vos_pool_held.specs.State.{held_durable, held_may, held_state};
ghost use Rattle.vos_store.specs.Calls.{SetsFuse};

use base_outside::region::Fusible;
use vos_pool_base::opened::Opened;
use vos_pool_held::held::Held;

// Sets the fuse of the region.
fn set_fuse_below<R: Fusible>(opened: &mut Opened<R>, k: u32)
    ensures fuse { SameButFuse R.extent R.count R.burns R.tells R.image R.may_leave R.moment R.left_since R.broken R.did opened.old.blocks.undo.region opened.new.blocks.undo.region }
    ensures rest { opened.new ≡ record opened.old { blocks = record opened.old.blocks { undo = record opened.old.blocks.undo { region = opened.new.blocks.undo.region } } } }
{
    opened.blocks.set_fuse(k);
}

/// Sets a fuse: it stops at the `k`-th write to its region from now on. 0 sets none, and takes away one that
/// is set. It changes nothing that is kept, and takes no memory.
pub fn set_fuse<R: Fusible>(held: &mut Held<R>, k: u32)
    ensures state { SetsFuse k (held_state R.count R.burns R.can_burn held.old) (held_state R.count R.burns R.can_burn held.new) }
    ensures durable { held_durable R.tells R.extent R.image held.new ≡ held_durable R.tells R.extent R.image held.old }
    ensures left { (x : Durable) → held_may R.tells R.extent R.may_leave held.new x → held_may R.tells R.extent R.may_leave held.old x }
    ensures size { R.extent held.new.opened.blocks.undo.region ≡ R.extent held.old.opened.blocks.undo.region }
    ensures target { held.new.target ≡ held.old.target }
{
    set_fuse_below(&mut held.opened, k);
}
