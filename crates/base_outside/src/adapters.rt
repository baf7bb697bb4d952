// Readers and writers of std as sources and sinks.
ghost use Rattle.std.specs.Prelude.{◌≡◌, OnOk, OnErr};
ghost use Rattle.std.specs.Io.{ReadsAtMost, WritesAtMost};
ghost use Rattle.std.specs.Io.KnownBytes.{ReadConsumes, WriteAppends};
ghost use Rattle.base_outside.specs.Causes.{HasCause, CountsStalls, StallsOnce, one_more};
ghost use Rattle.base_outside.specs.Adapters.{reader_of, reading_faults, writer_of, writing_faults, writing_stalls};

use crate::Failed;
use crate::sink::Sink;
use crate::source::Source;
use std::io::{Read, Write};

/// A reader as a source, at the trusted edge: each error of the reader is a fault, and of the bytes
/// that are left it tells what the reader tells.
#[derive(Drop)]
pub struct Reading<R> {
    inner: R,
    faults: u64,
}

impl<R: Read + Drop> Reading<R> {
    /// A source of what `inner` reads, without a fault so far.
    pub fn new(inner: R) -> Reading<R>
        ensures reader { reader_of result ≡ inner }
        ensures faults { reading_faults result ≡ 0 }
    {
        Reading { inner, faults: 0 }
    }

    /// The reader.
    pub fn into_inner(self) -> R
        ensures { result ≡ reader_of self }
    {
        let Reading { inner, faults: _ } = self;
        inner
    }
}

impl<R: Read + Drop> Source for Reading<R> {
    ghost left = { λ s. R.remaining (reader_of s) };

    ghost count = { reading_faults };

    fn read(&mut self, buf: &mut [u8]) -> Result<usize, Failed>
        ensures bound { ReadsAtMost result buf.new }
        ensures bytes { ReadConsumes (R.remaining (reader_of self.old))
            (R.remaining (reader_of self.new)) result buf.new }
        ensures cause { HasCause (reading_faults self.old) (reading_faults self.new) result }
        ensures fault { OnErr result (reading_faults self.new ≡ one_more (reading_faults self.old)) }
        ensures no_fault { OnOk result (reading_faults self.new ≡ reading_faults self.old) }
    {
        match self.inner.read(buf) {
            Ok(count) => Ok(count),
            Err(_) => {
                self.faults = self.faults.saturating_add(1);
                Err(Failed)
            }
        }
    }

    fn faults(&self) -> u64 {
        self.faults
    }
}

/// A writer as a sink, at the trusted edge: each error of the writer is a fault, each 0 for bytes
/// that are there a stall, and of the bytes that it holds it tells what the writer tells.
#[derive(Drop)]
pub struct Writing<W> {
    inner: W,
    faults: u64,
    stalls: u64,
}

impl<W: Write + Drop> Writing<W> {
    /// A sink that writes to `inner`, without a fault or a stall so far.
    pub fn new(inner: W) -> Writing<W>
        ensures writer { writer_of result ≡ inner }
        ensures faults { writing_faults result ≡ 0 }
        ensures stalls { writing_stalls result ≡ 0 }
    {
        Writing {
            inner,
            faults: 0,
            stalls: 0,
        }
    }

    /// The writer, which may hold bytes back until it is flushed.
    pub fn into_inner(self) -> W
        ensures { result ≡ writer_of self }
    {
        let Writing {
            inner,
            faults: _,
            stalls: _,
        } = self;
        inner
    }
}

impl<W: Write + Drop> Sink for Writing<W> {
    ghost held = { λ s. W.contents (writer_of s) };

    ghost count = { writing_faults };

    ghost stalls = { writing_stalls };

    fn write(&mut self, bytes: &[u8]) -> Result<usize, Failed>
        ensures bound { WritesAtMost result bytes.now }
        ensures bytes { WriteAppends (W.contents (writer_of self.old))
            (W.contents (writer_of self.new)) result bytes.now }
        ensures cause { HasCause (writing_faults self.old) (writing_faults self.new) result }
        ensures stall { CountsStalls (writing_stalls self.old) (writing_stalls self.new)
            result bytes.now }
        ensures fault { OnErr result (writing_faults self.new ≡ one_more (writing_faults self.old)) }
        ensures no_fault { OnOk result (writing_faults self.new ≡ writing_faults self.old) }
        ensures once { StallsOnce (writing_stalls self.old) (writing_stalls self.new)
            result bytes.now }
    {
        match self.inner.write(bytes) {
            Ok(count) => {
                if count == 0 && !bytes.is_empty() {
                    self.stalls = self.stalls.saturating_add(1);
                }
                Ok(count)
            }
            Err(_) => {
                self.faults = self.faults.saturating_add(1);
                Err(Failed)
            }
        }
    }

    fn faults(&self) -> u64 {
        self.faults
    }
}
