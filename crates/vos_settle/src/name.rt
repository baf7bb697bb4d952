// The name of a write.
ghost use Rattle.std.specs.Prelude.{◌≡◌};
ghost use Rattle.vos_settle.specs.Names.{moment_of};

use crate::task::WriteKind;
use base_types::epoch::Epoch;
use base_types::path::Path;
use vos_values::keys::Moment;

/// The name of one write: where it wrote, of which kind it is, and when it was made.
#[derive(Drop)]
pub struct WriteName {
    pub path: Path,
    pub kind: WriteKind,
    pub epoch: Epoch,
    pub minor: u8,
}

impl WriteName {
    /// When it was made.
    pub fn moment(&self) -> Moment
        ensures { result ≡ moment_of self.now }
    {
        Moment {
            epoch: self.epoch,
            minor: self.minor,
        }
    }
}
