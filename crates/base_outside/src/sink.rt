// Where bytes go.
ghost use Rattle.std.specs.Prelude.{◌≡◌, ℕ, ◌≤◌, List, OnOk, IsErrOf};
ghost use Rattle.std.specs.declared.option.Option.{Option};
ghost use Rattle.std.specs.Io.{WritesAtMost};
ghost use Rattle.std.specs.Io.KnownBytes.{WriteAppends, Appends};
ghost use Rattle.base_outside.specs.Causes.{HasCause, CountsStalls, Rose};
ghost use Rattle.base_outside.specs.Transfers.{AppendsPrefix};

use crate::Failed;
use thiserror::Error;

/// Where bytes go. It counts its faults.
pub trait Sink {
    /// The bytes that it holds, where it tells them.
    ghost held: { Self → Option (List ℕ) };

    /// How often it has failed, up to 2^64 - 1.
    ghost count: { Self → ℕ };

    /// How often it took nothing of a piece that wasn't empty.
    ghost stalls: { Self → ℕ };

    /// Takes some of the bytes, from the front, and says how many.
    ///
    /// # Errors
    ///
    /// `Failed` comes only where the count of faults rose in this call. Nothing was taken then.
    fn write(&mut self, bytes: &[u8]) -> Result<usize, Failed>
        ensures bound { WritesAtMost result bytes.now }
        ensures bytes { WriteAppends (held self.old) (held self.new) result bytes.now }
        ensures cause { HasCause (count self.old) (count self.new) result }
        ensures stall { CountsStalls (stalls self.old) (stalls self.new) result bytes.now };

    /// How often it has failed, up to 2^64 - 1.
    fn faults(&self) -> u64
        ensures { result ≡ count self.now };
}

/// Why not all of some bytes were written.
#[derive(Clone, Copy, Debug, Error)]
pub enum WriteNo {
    /// A write failed.
    #[error("write fault")]
    Fault,
    /// The sink took nothing of bytes that were there.
    #[error("nothing was taken")]
    Nothing,
}

/// Writes all of the bytes.
///
/// # Errors
///
/// `Fault` only where the sink's count of faults rose in this call, and `Nothing` only where it took
/// nothing of bytes that were there. The sink then holds a part of the bytes, from the front.
pub fn write_all<K: Sink>(sink: &mut K, bytes: &[u8]) -> Result<(), WriteNo>
    ensures whole { OnOk result (Appends (K.held sink.old) (K.held sink.new) bytes.now) }
    ensures prefix { AppendsPrefix (K.held sink.old) (K.held sink.new) bytes.now }
    ensures fault { IsErrOf result WriteNo.Fault → Rose (K.count sink.old) (K.count sink.new) }
    ensures later { K.count sink.old ≤ K.count sink.new }
    ensures nothing { IsErrOf result WriteNo.Nothing →
        Rose (K.stalls sink.old) (K.stalls sink.new) }
    ensures later_stalls { K.stalls sink.old ≤ K.stalls sink.new }
    ensures no_stall { OnOk result (K.stalls sink.new ≡ K.stalls sink.old) }
    ensures fault_is_no_stall { IsErrOf result WriteNo.Fault →
        K.stalls sink.new ≡ K.stalls sink.old }
{
    let mut done = 0;
    while done < bytes.len() {
        match sink.write(&bytes[done..]) {
            Ok(0) => return Err(WriteNo::Nothing),
            Ok(count) => done += count,
            Err(Failed) => return Err(WriteNo::Fault),
        }
    }
    Ok(())
}
