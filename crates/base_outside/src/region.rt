// Persistent ranges of bytes.
ghost use Rattle.std.specs.Prelude.{◌≡◌, ℕ, ◌+◌, ◌≤◌, ◌<◌, [], ◌∷◌, length, Bool, true, false, IsTrue, OnOk};
ghost use Rattle.base_outside.specs.Causes.{HasEitherCause};
ghost use Rattle.base_outside.specs.Images.{Image, Call, over, bytes_at, Only, NoMore, Tears, Elapses, SameButFuse, StaysBroken, Mends};
ghost use Rattle.base_outside.specs.Images.Call.{Read, Write, Flush};

use crate::Failed;

/// A persistent range of bytes. It counts its faults, and the failures of a fuse apart from them.
///
/// A type may tell the bytes of its regions. Then what a read gives and what a crash may leave is as
/// follows. Between two flushes a crash may leave any bytes in every range that was written, and
/// leaves the other bytes as they were. After a flush that went well it leaves what a read gives.
/// After a failed call every call fails until it is opened anew, which leaves one of the images
/// that a crash may leave.
pub trait Region {
    /// How many bytes it has. It never changes.
    ghost extent: { Self → ℕ };

    /// How often the outside has failed it, up to 2^64 - 1.
    ghost count: { Self → ℕ };

    /// How often a fuse has failed it, up to 2^64 - 1.
    ghost burns: { Self → ℕ };

    /// Whether regions of this type can have a fuse.
    ghost can_burn: { Bool };

    /// Whether regions of this type tell their bytes.
    ghost tells: { Bool };

    /// The bytes that it reads now.
    ghost image: { Self → Image };

    /// The images that a crash now may leave.
    ghost may_leave: { Self → Image → Type 0 };

    /// The moment, as a number that never falls.
    ghost moment: { Self → ℕ };

    /// The images that a crash at some moment from that one on may have left.
    ghost left_since: { Self → ℕ → Image → Type 0 };

    /// Whether a call has failed since it was last opened.
    ghost broken: { Self → Bool };

    /// What a call that went well makes of it.
    ghost did: { Self → Call → Self → Type 0 };

    /// How many bytes it has. Each is a number below 256.
    fn size(&self) -> u64
        ensures size { result ≡ extent self.now }
        ensures bytes { IsTrue tells → (i : ℕ) → image self.now i < 256 };

    /// Reads the bytes from `at` on into the whole of `buf`.
    ///
    /// # Errors
    ///
    /// `Failed` comes only where a count rose in this call.
    fn read(&mut self, at: u64, buf: &mut [u8]) -> Result<(), Failed>
        requires { at + length buf.old ≤ extent self.old }
        ensures extent { extent self.new ≡ extent self.old }
        ensures cause { HasEitherCause (count self.old) (count self.new)
            (burns self.old) (burns self.new) result }
        ensures bytes { OnOk result (IsTrue tells →
            buf.new ≡ bytes_at (image self.old) at (length buf.old)) }
        ensures image { IsTrue tells → image self.new ≡ image self.old }
        ensures crash { IsTrue tells → NoMore (may_leave self.old) (may_leave self.new) }
        ensures time { IsTrue tells → Elapses (moment self.old) (moment self.new)
            (left_since self.old) (left_since self.new) (may_leave self.new) }
        ensures broken { IsTrue tells → StaysBroken (broken self.old) (broken self.new) result }
        ensures call { OnOk result (did self.old Read self.new) };

    /// Writes all of the bytes from `at` on. They are sure to last only after a flush.
    ///
    /// # Errors
    ///
    /// `Failed` comes only where a count rose in this call.
    fn write(&mut self, at: u64, bytes: &[u8]) -> Result<(), Failed>
        requires { at + length bytes.now ≤ extent self.old }
        ensures extent { extent self.new ≡ extent self.old }
        ensures cause { HasEitherCause (count self.old) (count self.new)
            (burns self.old) (burns self.new) result }
        ensures image { OnOk result (IsTrue tells → image self.new ≡
            over (record { place = at; bytes = bytes.now }) (image self.old)) }
        ensures crash { IsTrue tells → Tears (record { place = at; bytes = bytes.now } ∷ [])
            (may_leave self.old) (may_leave self.new) }
        ensures time { IsTrue tells → Elapses (moment self.old) (moment self.new)
            (left_since self.old) (left_since self.new) (may_leave self.new) }
        ensures broken { IsTrue tells → StaysBroken (broken self.old) (broken self.new) result }
        ensures call { OnOk result
            (did self.old (Write (record { place = at; bytes = bytes.now })) self.new) };

    /// Makes all that was written last.
    ///
    /// # Errors
    ///
    /// `Failed` comes only where a count rose in this call.
    fn flush(&mut self) -> Result<(), Failed>
        ensures extent { extent self.new ≡ extent self.old }
        ensures cause { HasEitherCause (count self.old) (count self.new)
            (burns self.old) (burns self.new) result }
        ensures lasting { OnOk result (IsTrue tells → Only (image self.new) (may_leave self.new)) }
        ensures image { IsTrue tells → image self.new ≡ image self.old }
        ensures crash { IsTrue tells → NoMore (may_leave self.old) (may_leave self.new) }
        ensures time { IsTrue tells → Elapses (moment self.old) (moment self.new)
            (left_since self.old) (left_since self.new) (may_leave self.new) }
        ensures broken { IsTrue tells → StaysBroken (broken self.old) (broken self.new) result }
        ensures call { OnOk result (did self.old Flush self.new) };

    /// Opens it anew, as after a crash.
    ///
    /// # Errors
    ///
    /// `Failed` comes only where a count rose in this call.
    fn reopen(&mut self) -> Result<(), Failed>
        ensures extent { extent self.new ≡ extent self.old }
        ensures cause { HasEitherCause (count self.old) (count self.new)
            (burns self.old) (burns self.new) result }
        ensures lasting { OnOk result (IsTrue tells → Only (image self.new) (may_leave self.new)) }
        ensures image { OnOk result (IsTrue tells → may_leave self.old (image self.new)) }
        ensures crash { IsTrue tells → NoMore (may_leave self.old) (may_leave self.new) }
        ensures time { IsTrue tells → Elapses (moment self.old) (moment self.new)
            (left_since self.old) (left_since self.new) (may_leave self.new) }
        ensures broken { IsTrue tells → Mends (broken self.new) result };

    /// How often a fuse has failed it, up to 2^64 - 1.
    fn burnt(&self) -> u64
        ensures { result ≡ burns self.now };

    /// How often the outside has failed it, up to 2^64 - 1.
    fn faults(&self) -> u64
        ensures { result ≡ count self.now };

    /// This moment is one of those since an earlier one.
    ghost counts_now: { (region : Self) (t : ℕ) (c : Image) → IsTrue tells → t ≤ moment region →
        may_leave region c → left_since region t c };

    /// Since this moment there is no other.
    ghost only_now: { (region : Self) (c : Image) → IsTrue tells →
        left_since region (moment region) c → may_leave region c };

    /// There is an image that a crash now leaves.
    ghost leaves_some: { (region : Self) → IsTrue tells → (c : Image) × may_leave region c };

    /// A region that can't have a fuse is never failed by one.
    ghost unburnt: { (region : Self) → can_burn ≡ false → burns region ≡ 0 };
}

/// A region whose fuse can be set.
pub trait Fusible: Region {
    /// Sets the fuse: the `k`-th write from now on fails and isn't made, and every call after it fails
    /// until the region is opened anew. 0 sets none, and takes away one that is set. Nothing but the fuse
    /// changes.
    fn set_fuse(&mut self, k: u32)
        ensures { SameButFuse Self.extent Self.count Self.burns Self.tells Self.image Self.may_leave Self.moment Self.left_since Self.broken Self.did self.old self.new };

    /// Its type can have a fuse.
    ghost can_be_fused: { Self.can_burn ≡ true };
}
