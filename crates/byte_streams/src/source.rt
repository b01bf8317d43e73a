//! Where the bytes of a run come from.

ghost use Rattle.std.specs.Borrow.{sem};
ghost use Rattle.std.specs.Io.BufRead.{Rests};
ghost use Rattle.std.specs.Prelude.{◌≡◌, ◌<◌, ◌≤◌, ◌+◌, ℕ, [], length, take, drop, Some, None};
ghost use Rattle.byte_streams.specs.Streams.{SourceState, IsGet, GivesRest, ends_told, rests_told};

use std::io::Read;
use thiserror::Error;

/// A source failed, and gave nothing.
#[derive(Clone, Copy, Debug, PartialEq, Eq, Error)]
#[error("the source failed")]
pub struct SourceFault;

/// Gives bytes in order, up to an end. A failure is final: a source that has failed once fails again.
pub trait Source {
    /// How often it has failed, the bytes that it has given, and those still to come.
    ghost state: { Self → SourceState };

    /// How often it has answered that it is at its end, if it counts that. A source that doesn't count leaves this out. What is proved of
    /// every source is proved of those that count.
    ghost end_answers: { Self → ℕ } = { λ _. 0 };

    /// Writes the next bytes to the front of `buffer`, which must not be empty. Returns the number of these bytes. It is 0 at the end of
    /// the source, and only there. If the source fails, it gives nothing, and its count of failures rises by one.
    fn get(&mut self, buffer: &mut [u8]) -> Result<usize, SourceFault>
        requires room { 0 < length buffer.old }
        requires countable { (state self.old).failures < u64.MAX }
        ensures gets { IsGet (state self.old) (state self.new) buffer.new result }
        ensures end_answers { end_answers self.new ≤ end_answers self.old + ends_told result };

    /// How often it has failed.
    fn failures(&self) -> u64
        ensures { result ≡ (state self.now).failures };

    /// Gives all bytes still to come at once, without a copy, if the source has them in memory and they are at most `most` bytes. Then
    /// the source is at its end. Otherwise it returns None, and is unchanged: `get` gives the bytes then. None is always a right
    /// answer, and the only one of a source that has failed.
    fn give_rest(&mut self, most: usize) -> Option<&[u8]>
        ensures* rest { sem 𝓛 (Rests Self.row self.entry (λ new. GivesRest most (state self.old) (state new) result
            × (end_answers new ≤ end_answers self.old + rests_told result))) }
    {
        let _most = most;
        None
    }
}

/// A source over bytes in memory. It never fails, and takes no memory.
#[derive(Debug, Drop)]
pub struct SliceSource<'a> {
    bytes: &'a [u8],
    given: usize,
    ghost within: { given ≤ length bytes.now },
}

impl<'a> SliceSource<'a> {
    /// A source that gives these bytes.
    pub fn new(bytes: &'a [u8]) -> SliceSource<'a>
        ensures { ⟦<SliceSource<'a> as Source>⟧.state result
            ≡ record { failures = 0; given = Some []; to_come = Some bytes.now } }
    {
        SliceSource { bytes, given: 0 }
    }
}

impl<'a> Source for SliceSource<'a> {
    ghost state = { λ s. record { failures = 0; given = Some (take s.given s.bytes.now); to_come = Some (drop s.given s.bytes.now) } };

    fn get(&mut self, buffer: &mut [u8]) -> Result<usize, SourceFault> {
        let count = buffer.len().min(self.bytes.len() - self.given);
        buffer[..count].copy_from_slice(&self.bytes[self.given..self.given + count]);
        self.given += count;
        Ok(count)
    }

    fn failures(&self) -> u64 {
        0
    }

    fn give_rest(&mut self, most: usize) -> Option<&[u8]> {
        let rest = &self.bytes[self.given..];
        if rest.len() > most {
            return None;
        }
        self.given = self.bytes.len();
        Some(rest)
    }
}

/// A source over any reader. If the reader reports the bytes still to come, so does the source. An interrupted read counts as failed, too.
/// After a failure the reader isn't called again.
#[derive(Debug, Drop)]
pub struct ReadSource<R: Read + Drop> {
    reader: R,
    failures: u64,
}

impl<R: Read + Drop> ReadSource<R> {
    /// A source that gives what the reader reads.
    pub fn new(reader: R) -> ReadSource<R>
        ensures { ⟦<ReadSource<R> as Source>⟧.state result
            ≡ record { failures = 0; given = None; to_come = R.remaining reader } }
    {
        ReadSource {
            reader,
            failures: 0,
        }
    }
}

impl<R: Read + Drop> Source for ReadSource<R> {
    ghost state = { λ s. record { failures = s.failures; given = None; to_come = R.remaining s.reader } };

    fn get(&mut self, buffer: &mut [u8]) -> Result<usize, SourceFault> {
        if self.failures == 0 {
            if let Ok(count) = self.reader.read(buffer) {
                return Ok(count);
            }
        }
        self.failures += 1;
        Err(SourceFault)
    }

    fn failures(&self) -> u64 {
        self.failures
    }
}
