// Bytes of a content that are read from it.
ghost use Rattle.std.specs.Prelude.{◌≡◌, ◌∷◌, ℕ, Bool, [], IfOk, OnOk, IsTrue, length, is_err};
ghost use Rattle.base_outside.specs.Images.{Image, bytes_at};
ghost use Rattle.vos_check_base.specs.Answers.{IsBlame};
ghost use Rattle.vos_check_base.specs.Health.{Health, IsRead, is_stopped};

use crate::refusal::CheckNo;
use pmem_pages::refusal::Stopped;

/// A content that is read by place. A type may tell its bytes.
pub trait Source {
    /// Whether the type tells its bytes.
    ghost tells: { Bool };

    /// The byte at each place.
    ghost bytes: { Self → Image };

    /// Whether it stopped, and how often the region below was failed.
    ghost health: { Self → Health };

    /// What reads make of it.
    ghost looked: { Self → Self → Type 0 };

    /// No reads leave it.
    ghost looked_none: { (s : Self) → looked s s };

    /// Reads after reads are reads.
    ghost looked_on: { (s t u : Self) → looked s t → looked t u → looked s u };

    /// Reads the bytes from a place on.
    ///
    /// # Errors
    ///
    /// `Stopped` comes only where a count of the region rose in this call, or it had stopped before.
    fn read(&mut self, at: u64, buf: &mut [u8]) -> Result<(), Stopped>
        ensures read { OnOk result (IsTrue tells → buf.new ≡ bytes_at (bytes self.old) at (length buf.old)) }
        ensures kept { IsTrue tells → bytes self.new ≡ bytes self.old }
        ensures stops { IsRead health looked self.old self.new (is_err result) };
}

/// Reads the byte at a place.
#[tactic(auto, unfolding(base_outside::specs::Images::bytes_at))]
pub fn byte_at<S: Source>(source: &mut S, at: u64) -> Result<u8, Stopped>
    ensures read { IfOk result (λ b. IsTrue S.tells → b ≡ S.bytes source.old at) }
    ensures kept { IsTrue S.tells → S.bytes source.new ≡ S.bytes source.old }
    ensures stops { IsRead S.health S.looked source.old source.new (is_err result) }
{
    let mut byte = [0; 1];
    source.read(at, &mut byte)?;
    Ok(byte[0])
}

/// The fault of the byte at a place, which is read to be shown.
pub fn blame<S: Source>(source: &mut S, at: u64) -> CheckNo
    ensures blamed { IsTrue S.tells → IsBlame (S.bytes source.old) at result }
    ensures kept { IsTrue S.tells → S.bytes source.new ≡ S.bytes source.old }
    ensures stops { IsRead S.health S.looked source.old source.new (is_stopped result) }
{
    match byte_at(source, at) {
        Ok(byte) => CheckNo::Foreign { at, byte },
        Err(stopped) => stopped.into(),
    }
}
