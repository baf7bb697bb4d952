// An access of an attempt that another one met.
ghost use Rattle.std.specs.Prelude.{◌≡◌, IfOk};

use crate::epoch::Epoch;
use crate::id::AttemptId;
use crate::items::Memory;
use crate::path::Path;

/// A read or a write: the attempt, its epoch, and the path.
#[derive(Drop)]
pub struct Shown {
    pub by: AttemptId,
    pub epoch: Epoch,
    pub path: Path,
}

impl Shown {
    /// The same again.
    pub fn copy(&self) -> Result<Shown, Memory>
        ensures { IfOk result (λ shown. shown ≡ self.now) }
    {
        Ok(Shown {
            by: self.by,
            epoch: self.epoch,
            path: self.path.copy()?,
        })
    }
}
