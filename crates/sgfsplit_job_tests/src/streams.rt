//! A reader and a writer that count their calls, and may fail.

use std::io;
use std::io::{ErrorKind, Read, Write};

/// A reader of a text. Call number `fails_at`, counted from 1, fails with `Interrupted`; 0 names no call.
#[derive(Drop)]
pub(crate) struct Reads<'a> {
    pub(crate) left: &'a [u8],
    pub(crate) calls: usize,
    pub(crate) fails_at: usize,
}

impl Read for Reads<'_> {
    fn read(&mut self, buffer: &mut [u8]) -> io::Result<usize> {
        self.calls = self.calls.saturating_add(1);
        if self.calls == self.fails_at {
            return Err(io::Error::from(ErrorKind::Interrupted));
        }
        let count = self.left.len().min(buffer.len());
        let (front, rest) = self.left.split_at(count);
        buffer[..count].copy_from_slice(front);
        self.left = rest;
        Ok(count)
    }
}

/// A writer that takes at most `most` bytes at a call. Write number `fails_at`, counted from 1, fails; 0 names no
/// write. Unless `can_flush`, each flush fails.
#[derive(Drop)]
pub(crate) struct Writes {
    pub(crate) calls: usize,
    pub(crate) flushes: usize,
    pub(crate) bytes: usize,
    pub(crate) most: usize,
    pub(crate) fails_at: usize,
    pub(crate) can_flush: bool,
}

impl Writes {
    /// A writer that was never called, and never fails.
    pub(crate) fn new() -> Writes {
        Writes {
            calls: 0,
            flushes: 0,
            bytes: 0,
            most: usize::MAX,
            fails_at: 0,
            can_flush: true,
        }
    }

    /// How many writes, flushes and bytes there were.
    pub(crate) fn counts(&self) -> [usize; 3] {
        [self.calls, self.flushes, self.bytes]
    }
}

impl Write for Writes {
    fn write(&mut self, bytes: &[u8]) -> io::Result<usize> {
        self.calls = self.calls.saturating_add(1);
        if self.calls == self.fails_at {
            return Err(io::Error::from(ErrorKind::Interrupted));
        }
        let count = bytes.len().min(self.most);
        self.bytes = self.bytes.saturating_add(count);
        Ok(count)
    }

    fn flush(&mut self) -> io::Result<()> {
        self.flushes = self.flushes.saturating_add(1);
        if self.can_flush {
            return Ok(());
        }
        Err(io::Error::from(ErrorKind::Interrupted))
    }
}
