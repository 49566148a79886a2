//! Writing all of an output.
ghost use Rattle.std.specs.Prelude.{◌≡◌, ◌≤◌, OnOk, OnErr, IsErrOf};
ghost use Rattle.std.specs.Io.KnownBytes.{Appends};
ghost use Rattle.pp_input.specs.Faults.{HasRisen, counted};
ghost use Rattle.pp_run.specs.Writing.{AppendsPrefix, FlushesOnceAtMost};
ghost use Rattle.pp_run.specs.declared.write.WriteError.TheVariants.{Memory, WriteFault};

use pp_input::{Sink, SinkFault};

/// Why an output was not written whole.
#[derive(Clone, Copy, Debug, PartialEq, Eq)]
pub(crate) enum WriteError {
    /// The sink was out of memory.
    Memory,
    /// A write or the flush failed, or a write took nothing.
    WriteFault,
}

/// Writes all of these bytes, and flushes the sink once. If a write fails, a prefix of the bytes
/// was written.
pub(crate) fn send<K: Sink>(sink: &mut K, bytes: &[u8]) -> Result<(), WriteError>
    ensures ok { OnOk result (Appends (K.held sink.old) (K.held sink.new) bytes.now) }
    ensures flushed { OnOk result (K.flushes sink.new ≡ counted (K.flushes sink.old)) }
    ensures once { FlushesOnceAtMost (K.flushes sink.old) (K.flushes sink.new) }
    ensures err { OnErr result (AppendsPrefix (K.held sink.old) (K.held sink.new) bytes.now) }
    ensures count { K.faults sink.old ≤ K.faults sink.new }
    ensures faultless { OnOk result (K.faults sink.new ≡ K.faults sink.old) }
    ensures write_fault { IsErrOf result WriteFault →
        HasRisen (K.faults sink.old) (K.faults sink.new) }
    ensures memory { IsErrOf result Memory →
        HasRisen (K.refusals sink.old) (K.refusals sink.new) }
{
    let mut at = 0;
    while at < bytes.len() {
        match sink.write(&bytes[at..]) {
            Ok(0) => return Err(WriteError::WriteFault),
            Ok(n) => at += n,
            Err(SinkFault::Failed) => return Err(WriteError::WriteFault),
            Err(SinkFault::OutOfMemory) => return Err(WriteError::Memory),
        }
    }
    match sink.flush() {
        Ok(()) => Ok(()),
        Err(SinkFault::Failed) => Err(WriteError::WriteFault),
        Err(SinkFault::OutOfMemory) => Err(WriteError::Memory),
    }
}
