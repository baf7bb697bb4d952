// Reads that were served, and writes that they stand against.
ghost use Rattle.std.specs.Prelude.{◌≡◌, Contains, Decides};
ghost use Rattle.std.specs.List.{list_any};
ghost use Rattle.vos_stamp.specs.Stamps.{IsShown, NoneAgainst, stands_against};
ghost use Rattle.world_base.specs.Commits.{FirstRead, NoReads};

use base_types::epoch::Epoch;
use base_types::operation::MinorWrite;
use base_types::path::Path;
use base_types::shown::Shown;
use world_same::same::Same;

// Whether a read stands against a write on a path at an epoch.
fn stands_against(path: &Path, epoch: Epoch, read: &Shown) -> bool
    ensures { result ≡ stands_against path.now epoch.0 read.now }
{
    epoch.0 < read.epoch.0 && path.overlaps(&read.path)
}

// Whether some read does.
fn some_against(path: &Path, epoch: Epoch, stamps: &[Shown]) -> bool
    ensures { result ≡ list_any (stands_against path.now epoch.0) stamps.now }
{
    stamps.iter().any(|read| stands_against(path, epoch, read))
}

/// Whether no read stands against a write on a path at an epoch.
pub fn none_against(path: &Path, epoch: Epoch, stamps: &[Shown]) -> bool
    ensures { Decides result (NoneAgainst path.now epoch.0 stamps.now) }
{
    !some_against(path, epoch, stamps)
}

/// Whether no read stands against any of these writes.
pub fn no_reads(epoch: Epoch, stamps: &[Shown], writes: &[MinorWrite]) -> bool
    ensures { Decides result (NoReads epoch stamps.now writes.now) }
{
    for write in writes {
        if !none_against(write.write.path(), epoch, stamps) {
            return false;
        }
    }
    true
}

// Whether a read is among those that were served.
fn is_served(stamps: &[Shown], read: &Shown) -> bool
    ensures { Decides result (Contains stamps.now read.now) }
{
    for stamp in stamps {
        if stamp.is_same(read) {
            return true;
        }
    }
    false
}

// Whether a read may be shown against a write on a path at an epoch.
fn is_shown(path: &Path, epoch: Epoch, stamps: &[Shown], read: &Shown) -> bool
    ensures { Decides result (IsShown path.now epoch.0 stamps.now read.now) }
{
    is_served(stamps, read) && epoch.0 < read.epoch.0 && path.near(&read.path)
}

/// Whether a read may be shown for the first of these writes that one stands against.
pub fn is_first_read(epoch: Epoch, stamps: &[Shown], writes: &[MinorWrite], read: &Shown) -> bool
    ensures { Decides result (FirstRead epoch stamps.now writes.now read.now) }
{
    for write in writes {
        let path = write.write.path();
        if is_shown(path, epoch, stamps, read) {
            return true;
        }
        if !none_against(path, epoch, stamps) {
            return false;
        }
    }
    false
}
