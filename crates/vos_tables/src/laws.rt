// What is written of a table is what an image then holds.
ghost use Rattle.vos_tables.specs.Laws.{ChangesAreWritten, HeldAreTables, IsKeptInForm, TablesAreKept};

use crate::table::Tables;
use vos_places::below::image::laws::what_stands_is_read;
use vos_places::laws::places_are_written;

/// After the ranges of changes are written over an image that holds a table, it holds the table with
/// the changes.
pub fn changes_are_written()
    ensures { ChangesAreWritten }
{
    places_are_written();
}

/// What is kept is in form where its versions and its entries are.
pub fn tables_are_in_form(tables: &Tables)
    ensures { IsKeptInForm tables.now }
{
    let _ = &tables.identity;
}

/// What an image keeps whose places hold a table, and in whose blocks something stands, is what is kept
/// of the table, beside versions and entries.
pub fn tables_are_kept()
    ensures { TablesAreKept }
{
    what_stands_is_read();
}

/// What the places of an image of bytes hold is a table that may be remembered.
pub fn held_are_tables()
    ensures { HeldAreTables }
{}
