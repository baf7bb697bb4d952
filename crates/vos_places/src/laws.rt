// What is written over the fixed places of an image is what is read of it.
ghost use Rattle.vos_places.specs.Laws.{BeyondStays, ContsAreWritten, CountersAreWritten, PlacesStay, RowsChange, RowsCome, SnapsAreGivenUp, SnapsAreWritten, SnapsChange, SnapsCome, SnapsGo, TablesAreRead};

/// Where the places of an image hold a table, place by place, all of it is read of the image.
pub fn tables_are_read()
    ensures { TablesAreRead }
{}

/// After a container, a snapshot, a place that is given up or the counters are written, the places
/// hold the table with that change. What isn't written stays, as does all of it where only what lies
/// beyond the places is written.
pub fn places_are_written()
    ensures conts { ContsAreWritten }
    ensures snaps { SnapsAreWritten }
    ensures unused { SnapsAreGivenUp }
    ensures counters { CountersAreWritten }
    ensures others { PlacesStay }
    ensures beyond { BeyondStays }
{}

/// A table has no container and no snapshot twice after a row changed or came, and after a snapshot
/// came, changed or went.
pub fn tables_stay_apart()
    ensures change { RowsChange }
    ensures come { RowsCome }
    ensures snap_come { SnapsCome }
    ensures snap_change { SnapsChange }
    ensures snap_go { SnapsGo }
{}
