// Where the regions and clocks of all targets are kept.
ghost use Rattle.std.specs.Prelude.{◌≡◌, ℕ, Bool, true, false, IfOk, OnOk, OnErr, IsTrue};
ghost use Rattle.base_outside.specs.Causes.{HasCause};
ghost use Rattle.base_outside.specs.Images.{Image, Only, NoMore};
ghost use Rattle.base_outside.specs.Racks.{AllAreKept, ClocksAreKept, OtherClocksAreKept, OthersAreKept, IsHeldBack, IsTakenBack};

use crate::clock::Clock;
use crate::region::Region;
use crate::{Failed, TargetId};

/// Keeps the regions and clocks of all targets. It counts its faults.
///
/// Where its regions tell their bytes, it tells for each target what the region that it keeps will read
/// when it is next handed out, and what a crash now may leave of it. It opens a region anew before it
/// hands it out. Of a region that is handed out it tells nothing; the region itself does.
pub trait Rack {
    /// A target's region. It can't have a fuse.
    type Region: Region + Send;

    /// A target's clock.
    type Clock: Clock + Send + Drop;

    /// How often it has failed, up to 2^64 - 1.
    ghost count: { Self → ℕ };

    /// Whether there is such a target, and its region is handed out.
    ghost is_out: { Self → ℕ → Bool };

    /// The bytes that a target's region reads when it is next handed out.
    ghost next_image: { Self → ℕ → Image };

    /// The images that a crash now may leave of a target's region.
    ghost next_leaves: { Self → ℕ → Image → Type 0 };

    /// How often the outside has failed a target's region, when it is next handed out.
    ghost next_faults: { Self → ℕ → ℕ };

    /// How many bytes a target's region has, when it is next handed out.
    ghost next_size: { Self → ℕ → ℕ };

    /// Whether a clock may be the one that it hands out next for a target.
    ghost gives: { Self → ℕ → Self.Clock → Type 0 };

    /// Hands out the region of target `t`: with its own size where the rack keeps one already,
    /// and else a new one of `size` bytes. It was opened anew, or is new.
    ///
    /// # Errors
    ///
    /// `Failed` comes only where the count of faults rose in this call.
    fn region(&mut self, t: TargetId, size: u64) -> Result<Self::Region, Failed>
        ensures cause { HasCause (count self.old) (count self.new) result }
        ensures image { IfOk result (λ r. IsTrue Self.Region.tells → Self.Region.image r ≡ next_image self.old t) }
        ensures lasting { IfOk result (λ r. IsTrue Self.Region.tells → Only (Self.Region.image r) (Self.Region.may_leave r)) }
        ensures crash { IfOk result (λ r. IsTrue Self.Region.tells → NoMore (next_leaves self.old t) (Self.Region.may_leave r)) }
        ensures faults { IfOk result (λ r. IsTrue Self.Region.tells → Self.Region.count r ≡ next_faults self.old t) }
        ensures size { IfOk result (λ r. IsTrue Self.Region.tells → Self.Region.extent r ≡ next_size self.old t) }
        ensures out { OnOk result (IsTrue Self.Region.tells → is_out self.new t ≡ true) }
        ensures held_back { OnErr result (IsTrue Self.Region.tells → IsHeldBack (next_image self.old t) (next_image self.new t) (next_leaves self.old t) (next_leaves self.new t)
            (next_faults self.old t) (next_faults self.new t) (next_size self.old t) (next_size self.new t) (is_out self.old t) (is_out self.new t)) }
        ensures others { IsTrue Self.Region.tells → OthersAreKept t (next_image self.old) (next_image self.new) (next_leaves self.old) (next_leaves self.new)
            (next_faults self.old) (next_faults self.new) (next_size self.old) (next_size self.new) (is_out self.old) (is_out self.new) }
        ensures clocks { ClocksAreKept (gives self.old) (gives self.new) };

    /// Hands out a clock for target `t`.
    fn clock(&mut self, t: TargetId) -> Self::Clock
        ensures clock { gives self.old t result }
        ensures other_clocks { OtherClocksAreKept t (gives self.old) (gives self.new) }
        ensures count { count self.new ≡ count self.old }
        ensures kept { IsTrue Self.Region.tells → AllAreKept (next_image self.old) (next_image self.new) (next_leaves self.old) (next_leaves self.new)
            (next_faults self.old) (next_faults self.new) (next_size self.old) (next_size self.new) (is_out self.old) (is_out self.new) };

    /// Takes the region of target `t` back. The clauses on its bytes hold where it was handed out.
    fn take_back(&mut self, t: TargetId, region: Self::Region)
        ensures count { count self.new ≡ count self.old }
        ensures back { IsTrue Self.Region.tells → is_out self.old t ≡ true → IsTakenBack (Self.Region.may_leave region) (Self.Region.count region) (Self.Region.extent region)
            (next_image self.new t) (next_leaves self.new t) (next_faults self.new t) (next_size self.new t) (is_out self.new t) }
        ensures others { IsTrue Self.Region.tells → OthersAreKept t (next_image self.old) (next_image self.new) (next_leaves self.old) (next_leaves self.new)
            (next_faults self.old) (next_faults self.new) (next_size self.old) (next_size self.new) (is_out self.old) (is_out self.new) }
        ensures clocks { ClocksAreKept (gives self.old) (gives self.new) };

    /// How often it has failed, up to 2^64 - 1.
    fn faults(&self) -> u64
        ensures { result ≡ count self.now };

    /// Its regions can't have a fuse.
    ghost cannot_burn: { Self.Region.can_burn ≡ false };
}
