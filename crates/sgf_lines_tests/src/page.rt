//! A sink over an array. The sink counts its flushes.

ghost use Rattle.std.specs.Prelude.{[]};
ghost use Rattle.std.proofs.KnownBytes.{Appends-nil};

use sgf_lines::{ArraySink, Sink, SinkFault};

/// A sink with room for 256 bytes.
#[derive(Drop)]
pub struct Page {
    bytes: ArraySink<256>,
    flushes: u32,
}

impl Page {
    ghost use Rattle.std.specs.Prelude.{◌≡◌};

    /// An empty sink.
    pub fn new() -> Page
        ensures { (⟦<Page as Sink>⟧.state result).failures ≡ 0 }
    {
        Page {
            bytes: ArraySink::new(),
            flushes: 0,
        }
    }

    /// The bytes taken so far.
    pub fn as_slice(&self) -> &[u8] {
        self.bytes.as_slice()
    }

    /// How often the sink was flushed.
    pub fn flushes(&self) -> u32 {
        self.flushes
    }
}

impl Sink for Page {
    ghost state = { λ p. ⟦<ArraySink<256> as Sink>⟧.state p.bytes };

    ghost delivers_front = { λ p. ([], Appends-nil (⟦<ArraySink<256> as Sink>⟧.state p.bytes).taken) };

    fn put(&mut self, bytes: &[u8]) -> Result<usize, SinkFault> {
        self.bytes.put(bytes)
    }

    fn flush(&mut self) -> Result<(), SinkFault> {
        self.flushes = self.flushes.saturating_add(1);
        self.bytes.flush()
    }

    fn failures(&self) -> u64 {
        self.bytes.failures()
    }
}
