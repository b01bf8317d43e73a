//! Where the bytes of a run go: the trait `Sink`, two sinks over a writer, one of which holds bytes back, and a sink over an array.

ghost use Rattle.std.specs.Prelude.{◌≡◌, ◌<◌, ◌≤◌, ◌+◌, ◌++◌, [], length, take, drop, vec_len, vec_capacity, Some, IfOk, IfSome, OnErr, OnOk};
ghost use Rattle.std.specs.Io.KnownBytes.{append_known};
ghost use Rattle.std.proofs.KnownBytes.{Appends-nil};
ghost use Rattle.byte_streams.specs.Streams.{SinkState, IsPut, IsFlush, DeliversFront, PutsAll};
ghost use Rattle.byte_streams.specs.inner.HeldBack.{held_back};

use std::alloc::{AllocError, Global};
use std::io::Write;
use thiserror::Error;

/// The most bytes that a `BufferedSink` holds back.
const CAPACITY: usize = 65_536;

/// A sink failed, and took nothing.
#[derive(Clone, Copy, Debug, PartialEq, Eq, Error)]
#[error("the sink failed")]
pub struct SinkFault;

/// Takes bytes in order, and passes them on. A failure is final: a sink that has failed once fails at every later call, and passes nothing
/// more on.
pub trait Sink {
    /// How often it has failed, the bytes that it has taken, and the prefix of these that it has delivered.
    ghost state: { Self → SinkState };

    /// Takes bytes from the front of `bytes`, which must not be empty. Returns how many it took, at least one. If the sink fails, it takes
    /// nothing, and its count of failures rises by one.
    fn put(&mut self, bytes: &[u8]) -> Result<usize, SinkFault>
        requires some { 0 < length bytes.now }
        requires countable { (state self.old).failures < u64.MAX }
        ensures { IsPut (state self.old) (state self.new) bytes.now result };

    /// Delivers all bytes that the sink has taken. A flush takes no bytes. If the sink fails, its count of failures rises by one, and what
    /// it held back may be delivered in part.
    fn flush(&mut self) -> Result<(), SinkFault>
        requires countable { (state self.old).failures < u64.MAX }
        ensures { IsFlush (state self.old) (state self.new) result };

    /// How often it has failed.
    fn failures(&self) -> u64
        ensures { result ≡ (state self.now).failures };

    /// What is delivered is a prefix of what is taken.
    ghost delivers_front: { (sink : Self) → DeliversFront (state sink) };
}

/// A sink over any writer, which may be a `&mut Vec<u8>`. If the writer reports its bytes, the sink reports those that it has taken. It
/// holds nothing back: what it takes is passed on to the writer. Its flush flushes the writer. An interrupted write counts as failed, and
/// so does a write of 0 bytes. After a failure the writer isn't called again.
#[derive(Debug, Drop)]
pub struct WriteSink<W: Write + Drop> {
    writer: W,
    failures: u64,
}

impl<W: Write + Drop> WriteSink<W> {
    /// A sink that writes to the writer.
    pub fn new(writer: W) -> WriteSink<W>
        ensures { ⟦<WriteSink<W> as Sink>⟧.state result
            ≡ record { failures = 0; taken = W.contents writer; delivered = W.contents writer } }
    {
        WriteSink {
            writer,
            failures: 0,
        }
    }

    /// The writer.
    pub fn into_inner(self) -> W
        ensures { W.contents result ≡ (⟦<WriteSink<W> as Sink>⟧.state self).taken }
    {
        self.writer
    }
}

impl<W: Write + Drop> Sink for WriteSink<W> {
    ghost state = { λ s. record { failures = s.failures; taken = W.contents s.writer; delivered = W.contents s.writer } };

    ghost delivers_front = { λ s. ([], Appends-nil (W.contents s.writer)) };

    fn put(&mut self, bytes: &[u8]) -> Result<usize, SinkFault> {
        if self.failures == 0 {
            match self.writer.write(bytes) {
                Ok(0) | Err(_) => {}
                Ok(count) => return Ok(count),
            }
        }
        self.failures += 1;
        Err(SinkFault)
    }

    fn flush(&mut self) -> Result<(), SinkFault> {
        if self.failures == 0 && self.writer.flush().is_ok() {
            return Ok(());
        }
        self.failures += 1;
        Err(SinkFault)
    }

    fn failures(&self) -> u64 {
        self.failures
    }
}

/// A sink over any writer that holds back up to 65,536 bytes. It writes what it holds back when there is no room for more, and at a flush,
/// which also flushes the writer. If it gets more bytes at once than it can hold, it passes them straight to the writer. If the writer
/// reports its bytes, the sink reports those that it has taken and delivered.
///
/// An interrupted write counts as failed, and so does a write of 0 bytes. After a failure the writer isn't called again. Dropping the sink
/// doesn't call the writer either: the bytes that are held back are lost.
#[derive(Debug, Drop)]
pub struct BufferedSink<W: Write + Drop> {
    writer: W,
    /// The bytes held back. If a write failed, the first `handed` of them were written already.
    buffer: Vec<u8>,
    /// The number of bytes at the buffer's front that were written; 0 until a write fails.
    handed: usize,
    failures: u64,
    ghost capacity: { 65536 ≤ vec_capacity buffer },
    ghost within: { vec_len buffer ≤ 65536 },
    ghost whole: { failures ≡ 0 → handed ≡ 0 },
}

impl<W: Write + Drop> BufferedSink<W> {
    /// A sink that writes to the writer. `AllocError` comes only if memory for the sink was refused; then the writer is dropped.
    pub fn new(alloc: Global, writer: W) -> Result<BufferedSink<W>, AllocError>
        ensures { IfOk result (λ sink. ⟦<BufferedSink<W> as Sink>⟧.state sink
            ≡ record { failures = 0; taken = append_known (W.contents writer) []; delivered = W.contents writer }) }
    {
        Ok(BufferedSink {
            writer,
            buffer: Vec::with_capacity(alloc, CAPACITY)?,
            handed: 0,
            failures: 0,
        })
    }

    /// The writer, with what was written to it. What is held back is lost.
    pub fn into_inner(self) -> W
        ensures { W.contents result ≡ (⟦<BufferedSink<W> as Sink>⟧.state self).delivered }
    {
        self.writer
    }

    /// Holds bytes back. There must be room for them.
    fn hold(&mut self, bytes: &[u8])
        requires never_failed { self.old.failures ≡ 0 }
        requires room { vec_len self.old.buffer + length bytes.now ≤ 65536 }
        ensures buffer { self.new.buffer.items ≡ self.old.buffer.items ++ bytes.now }
        ensures writer { self.new.writer ≡ self.old.writer }
        ensures failures { self.new.failures ≡ 0 }
    {
        self.buffer.extend_from_slice(bytes).unwrap();
    }

    /// Writes all that is held back.
    fn write_out(&mut self) -> Result<(), SinkFault>
        requires never_failed { self.old.failures ≡ 0 }
        ensures out { IsFlush (⟦<BufferedSink<W> as Sink>⟧.state self.old) (⟦<BufferedSink<W> as Sink>⟧.state self.new) result }
        ensures empty { OnOk result (self.new.buffer.items ≡ []) }
    {
        let mut handed = 0;
        'writes: while handed < self.buffer.len() {
            match self.writer.write(&self.buffer[handed..]) {
                Ok(0) | Err(_) => {
                    self.handed = handed;
                    self.failures = 1;
                    return Err(SinkFault);
                }
                Ok(count) => handed += count,
            }
        }
        self.buffer.clear();
        Ok(())
    }

    /// Takes bytes for which there is no room. It writes all that was held back, then holds these back, or writes them if too many.
    #[cold]
    fn put_without_room(&mut self, bytes: &[u8]) -> Result<usize, SinkFault>
        requires some { 0 < length bytes.now }
        requires never_failed { self.old.failures ≡ 0 }
        ensures { IsPut (⟦<BufferedSink<W> as Sink>⟧.state self.old) (⟦<BufferedSink<W> as Sink>⟧.state self.new) bytes.now result }
    {
        self.write_out()?;
        if bytes.len() <= CAPACITY {
            self.hold(bytes);
            return Ok(bytes.len());
        }
        match self.writer.write(bytes) {
            Ok(0) | Err(_) => {
                self.failures = 1;
                Err(SinkFault)
            }
            Ok(count) => Ok(count),
        }
    }
}

impl<W: Write + Drop> Sink for BufferedSink<W> {
    ghost state = { λ s. record {
      failures = s.failures;
      taken = append_known (W.contents s.writer) (drop s.handed s.buffer.items);
      delivered = W.contents s.writer;
    } };

    ghost delivers_front = { λ s. held_back (W.contents s.writer) (drop s.handed s.buffer.items) };

    fn put(&mut self, bytes: &[u8]) -> Result<usize, SinkFault> {
        if self.failures > 0 {
            self.failures += 1;
            return Err(SinkFault);
        }
        if bytes.len() > CAPACITY - self.buffer.len() {
            return self.put_without_room(bytes);
        }
        self.hold(bytes);
        Ok(bytes.len())
    }

    fn flush(&mut self) -> Result<(), SinkFault> {
        if self.failures > 0 {
            self.failures += 1;
            return Err(SinkFault);
        }
        self.write_out()?;
        if self.writer.flush().is_err() {
            self.failures = 1;
            return Err(SinkFault);
        }
        Ok(())
    }

    fn failures(&self) -> u64 {
        self.failures
    }
}

/// A sink over an array. It takes no memory, holds nothing back, and fails once the array is full.
#[derive(Debug, Drop)]
pub struct ArraySink<const N: usize> {
    bytes: [u8; N],
    taken: usize,
    failures: u64,
    ghost within: { taken ≤ N },
    ghost full: { 0 < failures → taken ≡ N },
}

impl<const N: usize> ArraySink<N> {
    /// An empty sink with room for `N` bytes.
    pub fn new() -> ArraySink<N>
        ensures { ⟦<ArraySink<N> as Sink>⟧.state result ≡ record { failures = 0; taken = Some []; delivered = Some [] } }
    {
        ArraySink {
            bytes: [0; N],
            taken: 0,
            failures: 0,
        }
    }

    /// The bytes taken so far.
    pub fn as_slice(&self) -> &[u8]
        ensures { Some result.now ≡ (⟦<ArraySink<N> as Sink>⟧.state self.now).taken }
    {
        &self.bytes[..self.taken]
    }
}

impl<const N: usize> Sink for ArraySink<N> {
    ghost state = { λ s. record { failures = s.failures; taken = Some (take s.taken s.bytes); delivered = Some (take s.taken s.bytes) } };

    ghost delivers_front = { λ s. ([], Appends-nil (Some (take s.taken s.bytes))) };

    fn put(&mut self, bytes: &[u8]) -> Result<usize, SinkFault>
        requires some { 0 < length bytes.now }
        requires countable { (⟦<ArraySink<N> as Sink>⟧.state self.old).failures < u64.MAX }
        ensures put { IsPut (⟦<ArraySink<N> as Sink>⟧.state self.old) (⟦<ArraySink<N> as Sink>⟧.state self.new) bytes.now result }
        ensures full { OnErr result (IfSome (⟦<ArraySink<N> as Sink>⟧.state self.old).taken (λ taken. length taken ≡ N)) }
    {
        let count = bytes.len().min(N - self.taken);
        if count == 0 {
            self.failures += 1;
            return Err(SinkFault);
        }
        let room = &mut self.bytes[..];
        room[self.taken..self.taken + count].copy_from_slice(&bytes[..count]);
        self.taken += count;
        Ok(count)
    }

    fn flush(&mut self) -> Result<(), SinkFault> {
        if self.failures == 0 {
            return Ok(());
        }
        self.failures += 1;
        Err(SinkFault)
    }

    fn failures(&self) -> u64 {
        self.failures
    }
}

/// Puts all of `bytes`, with one put after another. If the sink fails, it has taken fewer of them, and is asked nothing more.
pub fn put_all<T: Sink>(bytes: &[u8], sink: &mut T) -> Result<(), SinkFault>
    requires countable { (T.state sink.old).failures < u64.MAX }
    ensures { PutsAll (T.state sink.old) (T.state sink.new) bytes.now result }
{
    let mut done = 0;
    'puts: while done < bytes.len() {
        done += sink.put(&bytes[done..])?;
    }
    Ok(())
}
