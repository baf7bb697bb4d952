// A source and a sink that move one byte a call.
ghost use Rattle.std.specs.Prelude.{Some};

use base_outside::Failed;
use base_outside::sink::Sink;
use base_outside::source::Source;
use base_outside::sure_sink::SureSink;
use base_outside::sure_source::SureSource;

/// Gives the bytes of another source, one a call.
#[derive(Drop)]
pub struct SlowSource {
    pub inner: SureSource,
}

impl Source for SlowSource {
    ghost left = { λ s. Some s.inner };

    ghost count = { λ _. 0 };

    fn read(&mut self, buf: &mut [u8]) -> Result<usize, Failed> {
        let one = buf.len().min(1);
        self.inner.read(&mut buf[..one])
    }

    fn faults(&self) -> u64 {
        0
    }
}

/// Takes bytes into another sink, one a call.
#[derive(Drop)]
pub struct SlowSink {
    pub inner: SureSink,
}

impl Sink for SlowSink {
    ghost held = { λ s. Some s.inner.held };

    ghost count = { λ _. 0 };

    ghost stalls = { λ s. s.inner.stalls };

    fn write(&mut self, bytes: &[u8]) -> Result<usize, Failed> {
        let one = bytes.len().min(1);
        self.inner.write(&bytes[..one])
    }

    fn faults(&self) -> u64 {
        0
    }
}
