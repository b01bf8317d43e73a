//! A writer that keeps a digest of its bytes.

use std::io;

/// The digest of all bytes written, wherever one write ends and the next begins. It doesn't keep the bytes.
#[derive(Drop)]
pub(crate) struct Digest {
    value: u64,
    /// The bytes that don't fill a word yet, the oldest one highest.
    begun: u64,
    /// How many there are.
    count: usize,
}

impl Digest {
    /// The digest of no bytes.
    pub(crate) fn new() -> Digest {
        Digest {
            value: 1,
            begun: 0,
            count: 0,
        }
    }

    /// The digest.
    pub(crate) fn value(&self) -> u64 {
        mixed(mixed(self.value, self.begun), self.count as u64)
    }

    /// Adds a number.
    pub(crate) fn add(&mut self, number: u64) {
        self.value = mixed(self.value, number);
    }

    /// Adds a byte.
    fn add_byte(&mut self, byte: u8) {
        self.begun = self.begun << 8 | u64::from(byte);
        self.count = (self.count % 8 + 1) % 8;
        if self.count == 0 {
            self.add(self.begun);
            self.begun = 0;
        }
    }
}

impl io::Write for Digest {
    fn write(&mut self, bytes: &[u8]) -> io::Result<usize> {
        let first = ((8 - self.count % 8) % 8).min(bytes.len());
        let (front, left) = bytes.split_at(first);
        for byte in front {
            self.add_byte(*byte);
        }
        let (words, rest) = left.as_chunks::<8>();
        for word in words {
            self.add(u64::from_be_bytes(*word));
        }
        for byte in rest {
            self.add_byte(*byte);
        }
        Ok(bytes.len())
    }

    fn flush(&mut self) -> io::Result<()> {
        Ok(())
    }
}

/// A digest and a number in one.
fn mixed(value: u64, number: u64) -> u64 {
    let mixed = (value ^ number).wrapping_mul(0x9e37_79b9_7f4a_7c15);
    mixed ^ (mixed >> 29)
}
