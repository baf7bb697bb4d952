// What an image holds once a pool over zeros was made.
ghost use Rattle.vos_fresh.specs.Fresh.{FreshHolds, FreshIsEmpty, FreshIsFree, FreshIsRead};

use vos_places::laws::tables_are_read;

/// Zeros with the two ranges over them are of the layout: their places hold an empty table, nothing
/// stands in their blocks, and they keep nothing, in the first incarnation. No block is taken.
pub fn fresh_is_empty()
    ensures holds { FreshHolds }
    ensures read { FreshIsRead }
    ensures kept { FreshIsEmpty }
    ensures free { FreshIsFree }
{
    tables_are_read();
}
