// Epochs: the moments at which transactions take effect.
ghost use Rattle.std.specs.Prelude.{◌≡◌, ◌/◌, ◌%◌};

use crate::items::Items;

/// The number of a target, from 0.
pub type TargetId = u8;

/// Numbers of targets, in an order that the call that gives them names.
pub type Targets = Items<TargetId>;

/// A moment: `ticks * 256 + issuer`. Epochs are ordered as numbers, so no two targets issue the
/// same one.
#[derive(Clone, Copy, Debug, PartialEq, Eq)]
pub struct Epoch(pub u64);

impl Epoch {
    /// The ticks of the issuing target's clock.
    pub fn ticks(self) -> u64
        ensures { result ≡ self.0 / 256 }
    {
        self.0 / 256
    }

    /// The target that issued it.
    pub fn issuer(self) -> TargetId
        ensures { result ≡ self.0 % 256 }
    {
        (self.0 % 256) as u8
    }
}
