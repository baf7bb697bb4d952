// Writes a text to the sink.
ghost use Rattle.std.specs.Prelude.{◌≡◌, ◌≤◌, ◌⊎◌};
ghost use Rattle.std.specs.Io.KnownBytes.{Appends};
ghost use Rattle.base_outside.specs.Causes.{Rose};
ghost use Rattle.base_outside.specs.Transfers.{AppendsPrefix};

use base_outside::sink::{Sink, write_all};
use daos_status::status::Status;

/// Writes a text, and says how that ended: `Done` or `WriteFault`.
pub fn write_text<K: Sink>(sink: &mut K, text: &[u8]) -> Status
    ensures answers { (result ≡ Status.Done) ⊎ (result ≡ Status.WriteFault) }
    ensures done { result ≡ Status.Done → Appends (K.held sink.old) (K.held sink.new) text.now }
    ensures prefix { AppendsPrefix (K.held sink.old) (K.held sink.new) text.now }
    ensures fault { result ≡ Status.WriteFault → Rose (K.count sink.old) (K.count sink.new) ⊎ Rose (K.stalls sink.old) (K.stalls sink.new) }
    ensures later { K.count sink.old ≤ K.count sink.new }
    ensures later_stalls { K.stalls sink.old ≤ K.stalls sink.new }
{
    match write_all(sink, text) {
        Ok(()) => Status::Done,
        Err(_) => Status::WriteFault,
    }
}
