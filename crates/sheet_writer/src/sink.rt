//! Destinations for the output of a run.
ghost use Rattle.std.specs.Prelude.{◌≡◌, ℕ, ◌+◌, ◌-◌, ◌^◌, ◌<◌, ◌≤◌, List, Option, Some, None, length, take, IfOk};
ghost use Rattle.std.specs.Prelude.{IfErr, OnOk, OnErr, [], vec_len, vec_capacity};
ghost use Rattle.std.specs.Io.KnownBytes.{Appends, Keeps};
ghost use Rattle.sheet_writer.specs.Sinks.{SinkView, IsCountable};
ghost use Rattle.sheet_writer.specs.Memory.{MemoryState, acceptable, IsSpent, after_taking};

use sheet_text::Pieces;
use std::alloc::{AllocError, Global};
use std::io;
use std::marker::Model;

/// The error of a call that a sink refused. The sink has taken no byte in this call.
#[derive(Clone, Copy, Debug, PartialEq, Eq)]
pub struct SinkFault;

/// A destination for bytes, which it takes in order. A call may take fewer bytes than it is given, always from the front.
pub trait Sink {
    // The bytes that it has taken, if it reports them, and the number of calls that it has refused.
    ghost seen: { Self → SinkView };

    /// Takes one or more bytes from the front of this slice, and returns their number. The slice must not be empty. A call that fails takes no bytes.
    fn accept(&mut self, bytes: &[u8]) -> Result<usize, SinkFault>
        requires some { 0 < length bytes.now }
        requires countable { IsCountable (seen self.old) }
        ensures within { IfOk result (λ k. (0 < k) × (k ≤ length bytes.now)) }
        ensures taken { IfOk result (λ k. Appends (seen self.old).bytes (seen self.new).bytes (take k bytes.now)) }
        ensures steady { OnOk result ((seen self.new).failures ≡ (seen self.old).failures) }
        ensures kept { OnErr result (Keeps (seen self.old).bytes (seen self.new).bytes) }
        ensures raised { OnErr result ((seen self.new).failures ≡ (seen self.old).failures + 1) };
}

/// The error of a write that a sink broke off: it took the first `written` bytes of the text, and then refused a call.
#[derive(Clone, Copy, Debug, PartialEq, Eq)]
pub(crate) struct Stopped {
    pub(crate) written: usize,
}

/// Passes all these bytes to the sink, in as many calls as are needed. Stops at the first call that the sink refuses.
pub(crate) fn write_all<S: Sink>(sink: &mut S, bytes: &[u8]) -> Result<(), Stopped>
    requires countable { IsCountable (S.seen sink.old) }
    ensures whole { OnOk result (Appends (S.seen sink.old).bytes (S.seen sink.new).bytes bytes.now) }
    ensures steady { OnOk result ((S.seen sink.new).failures ≡ (S.seen sink.old).failures) }
    ensures within { IfErr result (λ e. e.written < length bytes.now) }
    ensures part { IfErr result (λ e. Appends (S.seen sink.old).bytes (S.seen sink.new).bytes (take e.written bytes.now)) }
    ensures raised { OnErr result ((S.seen sink.new).failures ≡ (S.seen sink.old).failures + 1) }
{
    let mut written = 0;
    while written < bytes.len() {
        match sink.accept(&bytes[written..]) {
            Ok(count) => written += count,
            Err(_) => return Err(Stopped { written }),
        }
    }
    Ok(())
}

/// Passes all pieces of a text to the sink, in order. Stops at the first call that the sink refuses.
pub(crate) fn write_pieces<S: Sink>(sink: &mut S, text: Pieces<'_, '_>) -> Result<(), Stopped>
    requires countable { IsCountable (S.seen sink.old) }
    requires counted { length text ≤ u64.MAX }
    ensures whole { OnOk result (Appends (S.seen sink.old).bytes (S.seen sink.new).bytes text.entry) }
    ensures steady { OnOk result ((S.seen sink.new).failures ≡ (S.seen sink.old).failures) }
    ensures within { IfErr result (λ e. e.written < length text.entry) }
    ensures part { IfErr result (λ e. Appends (S.seen sink.old).bytes (S.seen sink.new).bytes (take e.written text.entry)) }
    ensures raised { OnErr result ((S.seen sink.new).failures ≡ (S.seen sink.old).failures + 1) }
{
    let mut written = 0;
    let mut pieces = text;
    while let Some(piece) = pieces.take_next() {
        match write_all(sink, piece) {
            Ok(()) => written += piece.len(),
            Err(stopped) => {
                return Err(Stopped {
                    written: written + stopped.written,
                });
            }
        }
    }
    Ok(())
}

/// A sink that passes its bytes to a writer. A call fails if the writer returns an error, even for an interrupted write, or accepts 0 bytes.
#[derive(Drop)]
pub struct WriteSink<T: io::Write> {
    writer: T,
    failures: u64,
}

impl<T: io::Write> WriteSink<T> {
    /// A sink for this writer. It hasn't refused a call yet.
    pub fn new(writer: T) -> Self
        ensures bytes { (⟦<WriteSink<T> as Sink>⟧.seen result).bytes ≡ T.contents writer }
        ensures fresh { (⟦<WriteSink<T> as Sink>⟧.seen result).failures ≡ 0 }
    {
        WriteSink {
            writer,
            failures: 0,
        }
    }

    /// Returns the writer.
    pub fn into_inner(self) -> T
        ensures { T.contents result ≡ (⟦<WriteSink<T> as Sink>⟧.seen self).bytes }
    {
        self.writer
    }
}

impl<T: io::Write> Sink for WriteSink<T> {
    ghost seen = { λ s. record { bytes = T.contents s.writer; failures = s.failures } };

    fn accept(&mut self, bytes: &[u8]) -> Result<usize, SinkFault> {
        match self.writer.write(bytes) {
            Ok(count) if count > 0 => Ok(count),
            _ => {
                self.failures += 1;
                Err(SinkFault)
            }
        }
    }
}

/// A sink that keeps its bytes in a vector. It has room for `room` bytes in all, and takes at most `per_call` bytes in one call. `calls` is the
/// number of further calls that may succeed. A call is refused if this number is 0, or if the sink could take no byte.
#[derive(Drop)]
pub struct MemorySink {
    bytes: Vec<u8>,
    room: usize,
    per_call: usize,
    calls: u64,
    failures: u64,
}

impl Model for MemorySink {
    ghost Value = { MemoryState };

    ghost view = { λ s. record {
      bytes = s.bytes.items;
      room = s.room;
      per_call = s.per_call;
      calls = s.calls;
      failures = s.failures;
    } };

    ghost invariant = { λ s. (vec_len s.bytes ≤ s.room) × (s.room ≤ vec_capacity s.bytes) };
}

impl MemorySink {
    /// Makes an empty sink. Memory for `room` bytes is reserved now, so that no later call needs memory. The only error is refused memory.
    pub fn new(alloc: Global, room: usize, per_call: usize, calls: u64) -> Result<Self, AllocError>
        ensures { IfOk result (λ s. s ≡ record {
          bytes = [];
          room = room;
          per_call = per_call;
          calls = calls;
          failures = 0;
        }) }
    {
        let bytes = Vec::with_capacity(alloc, room)?;
        Ok(MemorySink {
            bytes,
            room,
            per_call,
            calls,
            failures: 0,
        })
    }

    /// The bytes that the sink has taken.
    pub fn bytes(&self) -> &[u8]
        ensures { result.now ≡ self.now.bytes }
    {
        self.bytes.as_slice()
    }
}

impl Sink for MemorySink {
    ghost seen = { λ s. record { bytes = Some s.bytes; failures = s.failures } };

    fn accept(&mut self, bytes: &[u8]) -> Result<usize, SinkFault>
        requires some { 0 < length bytes.now }
        requires countable { self.old.failures < u64.MAX }
        ensures within { IfOk result (λ k. (0 < k) × (k ≤ length bytes.now)) }
        ensures taken { IfOk result (λ k. self.new ≡ after_taking self.old (take k bytes.now)) }
        // A call succeeds only if fewer than `calls` calls have succeeded before.
        ensures answers { OnOk result (0 < self.old.calls) }
        // The sink takes as many bytes as the slice has, as the room left allows, and as the limit for one call allows.
        ensures most { IfOk result (λ k. k ≡ acceptable self.old (length bytes.now)) }
        ensures refused { OnErr result (IsSpent self.old (length bytes.now)) }
        ensures kept { OnErr result (self.new ≡ record self.old { failures = self.old.failures + 1 }) }
    {
        let count = bytes
            .len()
            .min(self.per_call)
            .min(self.room - self.bytes.len());
        if count == 0 || self.calls == 0 {
            self.failures += 1;
            return Err(SinkFault);
        }
        match self.bytes.extend_from_slice(&bytes[..count]) {
            Ok(()) => {
                self.calls -= 1;
                Ok(count)
            }
            Err(_) => unreachable!(),
        }
    }
}
