//! Outputs with buffers in front of them.
ghost use Rattle.std.specs.Prelude.{◌≡◌, ◌+◌, ◌-◌, ◌<◌, ◌≤◌, [], ◌++◌, IfErr, IfOk, OnErr, OnOk, drop, false, length, take, true, vec_capacity, vec_len};
ghost use Rattle.std.specs.Io.KnownBytes.{Appends, Keeps, append_known};
ghost use Rattle.world.specs.Outputs.{IsFrontOf, IsSteady};

use crate::output::Output;
use sheet_writer::{Sink, SinkFault};

/// The error of a write or a flush that failed after the first `written` bytes of a text had been written.
#[derive(Clone, Copy, Debug, PartialEq, Eq)]
pub struct Broken {
    pub written: usize,
}

/// Writes all these bytes to the output, and flushes it. Stops at the first call that fails.
pub fn write_and_flush<T: Output>(output: &mut T, bytes: &[u8]) -> Result<(), Broken>
    requires countable { (T.seen output.old).failures < u64.MAX }
    ensures whole { OnOk result (Appends (T.seen output.old).bytes (T.seen output.new).bytes bytes.now) }
    ensures steady { OnOk result (IsSteady (T.seen output.old) (T.seen output.new)) }
    ensures within { IfErr result (λ e. e.written ≤ length bytes.now) }
    ensures part { IfErr result (λ e. Appends (T.seen output.old).bytes (T.seen output.new).bytes (take e.written bytes.now)) }
    ensures failed { OnErr result ((T.seen output.new).failures ≡ (T.seen output.old).failures + 1) }
{
    write_all(output, bytes)?;
    match output.flush() {
        Ok(()) => Ok(()),
        Err(_) => Err(Broken {
            written: bytes.len(),
        }),
    }
}

/// Writes all these bytes to the output, in as many calls as are needed. Stops at the first call that fails.
fn write_all<T: Output>(output: &mut T, bytes: &[u8]) -> Result<(), Broken>
    requires countable { (T.seen output.old).failures < u64.MAX }
    ensures whole { OnOk result (Appends (T.seen output.old).bytes (T.seen output.new).bytes bytes.now) }
    ensures steady { OnOk result (IsSteady (T.seen output.old) (T.seen output.new)) }
    ensures within { IfErr result (λ e. e.written < length bytes.now) }
    ensures part { IfErr result (λ e. Appends (T.seen output.old).bytes (T.seen output.new).bytes (take e.written bytes.now)) }
    ensures failed { OnErr result ((T.seen output.new).failures ≡ (T.seen output.old).failures + 1) }
{
    let mut written = 0;
    while written < bytes.len() {
        match output.write(&bytes[written..]) {
            Ok(count) => written += count,
            Err(_) => return Err(Broken { written }),
        }
    }
    Ok(())
}

/// An output with a buffer in front of it, used as a sink. Bytes wait in the buffer until further bytes no longer fit, or until `write_out` or
/// `finish` is called.
#[derive(Drop)]
pub struct Buffered<T> {
    output: T,
    buffer: Vec<u8>,
}

impl<T: Output> Buffered<T> {
    /// Puts this buffer in front of an output. The content of the buffer is dropped, and its capacity is the number of bytes that can wait in it.
    pub fn new(buffer: Vec<u8>, output: T) -> Buffered<T>
        ensures bytes { (⟦<Buffered<T> as Sink>⟧.seen result).bytes ≡ (T.seen output).bytes }
        ensures failures { (⟦<Buffered<T> as Sink>⟧.seen result).failures ≡ (T.seen output).failures }
    {
        let mut buffer = buffer;
        buffer.clear();
        Buffered { output, buffer }
    }

    /// Writes the bytes in the buffer to the output, and then flushes the output if all were written. After an error, bytes that weren't written stay
    /// in the buffer.
    pub fn write_out(&mut self) -> Result<(), SinkFault>
        requires countable { (⟦<Buffered<T> as Sink>⟧.seen self.old).failures < u64.MAX }
        ensures kept { Keeps (⟦<Buffered<T> as Sink>⟧.seen self.old).bytes (⟦<Buffered<T> as Sink>⟧.seen self.new).bytes }
        ensures empty { OnOk result (self.new.buffer.items ≡ []) }
        ensures steady { OnOk result ((⟦<Buffered<T> as Sink>⟧.seen self.new).failures ≡ (⟦<Buffered<T> as Sink>⟧.seen self.old).failures) }
        ensures failed { OnErr result ((⟦<Buffered<T> as Sink>⟧.seen self.new).failures
            ≡ (⟦<Buffered<T> as Sink>⟧.seen self.old).failures + 1) }
    {
        self.write_buffer()?;
        match self.output.flush() {
            Ok(()) => Ok(()),
            Err(_) => Err(SinkFault),
        }
    }

    /// Writes the bytes in the buffer to the output, and flushes the output. Returns whether both actions succeeded, and the output.
    pub fn finish(self) -> (bool, T)
        requires countable { (⟦<Buffered<T> as Sink>⟧.seen self).failures < u64.MAX }
        ensures whole { result.0 ≡ true → Keeps (⟦<Buffered<T> as Sink>⟧.seen self).bytes (T.seen result.1).bytes }
        ensures steady { result.0 ≡ true → (T.seen result.1).failures ≡ (⟦<Buffered<T> as Sink>⟧.seen self).failures }
        ensures part { IsFrontOf (T.seen result.1).bytes (⟦<Buffered<T> as Sink>⟧.seen self).bytes }
        ensures counted { (⟦<Buffered<T> as Sink>⟧.seen self).failures ≤ (T.seen result.1).failures }
        ensures failed { result.0 ≡ false → (T.seen result.1).failures ≡ (⟦<Buffered<T> as Sink>⟧.seen self).failures + 1 }
    {
        let mut sink = self;
        match sink.write_out() {
            Ok(()) => (true, sink.into_output()),
            Err(_) => (false, sink.into_output()),
        }
    }

    /// The number of bytes that wait in the buffer.
    pub fn waiting(&self) -> usize
        ensures { result ≡ length self.now.buffer.items }
    {
        self.buffer.len()
    }

    /// Returns the output. Bytes that still wait in the buffer are lost.
    pub fn into_output(self) -> T
        ensures { result ≡ self.output }
    {
        self.output
    }

    /// Writes the bytes in the buffer to the output. After an error, bytes that weren't written stay in the buffer.
    fn write_buffer(&mut self) -> Result<(), SinkFault>
        requires countable { (T.seen self.old.output).failures < u64.MAX }
        ensures kept { Keeps (append_known (T.seen self.old.output).bytes self.old.buffer.items)
            (append_known (T.seen self.new.output).bytes self.new.buffer.items) }
        ensures empty { OnOk result (self.new.buffer.items ≡ []) }
        ensures room { OnOk result (vec_len self.new.buffer ≡ 0) }
        ensures capacity { vec_capacity self.new.buffer ≡ vec_capacity self.old.buffer }
        ensures steady { OnOk result ((T.seen self.new.output).failures ≡ (T.seen self.old.output).failures) }
        ensures failed { OnErr result ((T.seen self.new.output).failures ≡ (T.seen self.old.output).failures + 1) }
    {
        match write_all(&mut self.output, self.buffer.as_slice()) {
            Ok(()) => {
                self.buffer.clear();
                Ok(())
            }
            Err(broken) => {
                remove_front(&mut self.buffer, broken.written);
                Err(SinkFault)
            }
        }
    }

    /// Takes bytes for which the buffer has too little room, and returns the number of bytes taken. First the content of the buffer is written to the
    /// output. If the bytes are fewer than the capacity of the buffer, all of them are then put into the buffer. Otherwise they are passed directly
    /// to the output, which may take only the first of them. If a write fails, none of the bytes are taken.
    fn accept_many(&mut self, bytes: &[u8]) -> Result<usize, SinkFault>
        requires some { 0 < length bytes.now }
        requires countable { (T.seen self.old.output).failures < u64.MAX }
        ensures within { IfOk result (λ k. (0 < k) × (k ≤ length bytes.now)) }
        ensures taken { IfOk result (λ k. Appends (append_known (T.seen self.old.output).bytes self.old.buffer.items)
            (append_known (T.seen self.new.output).bytes self.new.buffer.items) (take k bytes.now)) }
        ensures kept { OnErr result (Keeps (append_known (T.seen self.old.output).bytes self.old.buffer.items)
            (append_known (T.seen self.new.output).bytes self.new.buffer.items)) }
        ensures steady { OnOk result ((T.seen self.new.output).failures ≡ (T.seen self.old.output).failures) }
        ensures failed { OnErr result ((T.seen self.new.output).failures ≡ (T.seen self.old.output).failures + 1) }
    {
        self.write_buffer()?;
        if bytes.len() < self.buffer.capacity() {
            append(&mut self.buffer, bytes);
            return Ok(bytes.len());
        }
        match self.output.write(bytes) {
            Ok(count) => Ok(count),
            Err(_) => Err(SinkFault),
        }
    }
}

impl<T: Output> Sink for Buffered<T> {
    ghost seen = { λ sink. record {
      bytes = append_known (T.seen sink.output).bytes sink.buffer.items;
      failures = (T.seen sink.output).failures;
    } };

    fn accept(&mut self, bytes: &[u8]) -> Result<usize, SinkFault> {
        if bytes.len() > self.buffer.capacity() - self.buffer.len() {
            return self.accept_many(bytes);
        }
        append(&mut self.buffer, bytes);
        Ok(bytes.len())
    }
}

/// Appends bytes to the buffer, which must have room for them.
fn append(buffer: &mut Vec<u8>, bytes: &[u8])
    requires { vec_len buffer.old + length bytes.now ≤ vec_capacity buffer.old }
    ensures { buffer.new.items ≡ buffer.old.items ++ bytes.now }
{
    let Ok(()) = buffer.extend_from_slice(bytes) else {
        unreachable!()
    };
}

/// Removes the first `count` bytes of the buffer.
fn remove_front(buffer: &mut Vec<u8>, count: usize)
    requires { count ≤ vec_len buffer.old }
    ensures items { buffer.new.items ≡ drop count buffer.old.items }
    ensures capacity { vec_capacity buffer.new ≡ vec_capacity buffer.old }
{
    let len = buffer.len();
    buffer.as_mut_slice().copy_within(count..len, 0);
    buffer.truncate(len - count);
}
