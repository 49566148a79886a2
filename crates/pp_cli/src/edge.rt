//! The edge: any reader and any writer of std as a source and a sink.
ghost use Rattle.std.specs.Prelude.{◌≡◌};

use pp_input::{Failed, Sink, SinkFault, Source};
use std::io::{Read, Write};

/// A reader as a source. The source has left what the reader has left, if the reader's model has
/// it.
#[derive(Drop)]
pub struct StdSource<R: Read + Drop> {
    stream: R,
    faults: u64,
}

impl<R: Read + Drop> StdSource<R> {
    /// A source over this reader, with no failure counted.
    pub fn new(stream: R) -> StdSource<R>
        ensures stream { result.stream ≡ stream }
        ensures faults { result.faults ≡ 0 }
    {
        StdSource { stream, faults: 0 }
    }

    /// The reader.
    pub fn into_stream(self) -> R
        ensures { result ≡ self.stream }
    {
        self.stream
    }
}

impl<R: Read + Drop> Source for StdSource<R> {
    ghost left = { λ s. R.remaining s.stream };

    ghost faults = { λ s. s.faults };

    fn read(&mut self, into: &mut [u8]) -> Result<usize, Failed> {
        match self.stream.read(into) {
            Ok(n) => Ok(n),
            Err(_) => {
                self.faults = self.faults.saturating_add(1);
                Err(Failed)
            }
        }
    }
}

/// A writer as a sink. The sink holds what the writer holds, if the writer's model has it. It does
/// not say what was sent on, and it never reports out of memory.
#[derive(Drop)]
pub struct StdSink<W: Write + Drop> {
    stream: W,
    flushes: u64,
    faults: u64,
}

impl<W: Write + Drop> StdSink<W> {
    /// A sink over this writer, with no flush and no failure counted.
    pub fn new(stream: W) -> StdSink<W>
        ensures stream { result.stream ≡ stream }
        ensures flushes { result.flushes ≡ 0 }
        ensures faults { result.faults ≡ 0 }
    {
        StdSink {
            stream,
            flushes: 0,
            faults: 0,
        }
    }

    /// The writer.
    pub fn into_stream(self) -> W
        ensures { result ≡ self.stream }
    {
        self.stream
    }
}

impl<W: Write + Drop> Sink for StdSink<W> {
    ghost use Rattle.std.specs.Prelude.{None};

    ghost held = { λ s. W.contents s.stream };

    ghost sent = { λ s. None };

    ghost flushes = { λ s. s.flushes };

    ghost faults = { λ s. s.faults };

    ghost refusals = { λ _. 0 };

    fn write(&mut self, bytes: &[u8]) -> Result<usize, SinkFault> {
        match self.stream.write(bytes) {
            Ok(n) => {
                if n == 0 && !bytes.is_empty() {
                    self.faults = self.faults.saturating_add(1);
                }
                Ok(n)
            }
            Err(_) => {
                self.faults = self.faults.saturating_add(1);
                Err(SinkFault::Failed)
            }
        }
    }

    fn flush(&mut self) -> Result<(), SinkFault> {
        self.flushes = self.flushes.saturating_add(1);
        match self.stream.flush() {
            Ok(()) => Ok(()),
            Err(_) => {
                self.faults = self.faults.saturating_add(1);
                Err(SinkFault::Failed)
            }
        }
    }
}
