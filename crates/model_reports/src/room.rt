// Where targets have room for all that a script writes, no attempt is refused for want of space.

ghost use Rattle.model_reports.specs.Rooms.{ListsOfTransactions, PlacesAreFound, RoomIsFound, TransactionsFindRoom};

/// Says when no attempt of a legal report is refused for want of space. No attempt to make a snapshot is
/// refused a place where the snapshots of before and those that commands make, each as often as it may be
/// attempted, are 256 at most, whatever blocks there are. No attempt at all is refused where beside that every
/// target begins with as many free blocks as all commands of the script take together, counted so; nor where
/// there are as many, and each command is a transaction that reads at no snapshot. A test of the commands in
/// the clients' lists shows that they are.
pub fn laws_of_room()
    ensures places { PlacesAreFound }
    ensures found { RoomIsFound }
    ensures transactions { TransactionsFindRoom }
    ensures lists { ListsOfTransactions }
{}
