//! Texts as long as the buffers that a source is read into, and longer. The source counts how often it is asked. It must be asked until it
//! is at its end, and then not once more.

ghost use Rattle.std.specs.Prelude.{◌≡◌, None};

use crate::page::Page;
use crate::runs::LIST;
use crate::seen::Seen;
use sgf_lines::{Counts, RunFault, Source, SourceFault, count, split};
use std::alloc::Global;

/// The number of bytes of a text, the most bytes that its source gives at once, how often it must be asked, and the text's row. The
/// source is asked for 65,536 bytes at a time.
type Read = (usize, usize, u32, &'static str);

const READS: [Read; 12] = [
    (4_096, 70_000, 2, "4094 1 1 score 0 0 open\n"),
    (6_000, 70_000, 2, "5998 1 1 score 0 0 open\n"),
    (6_000, 4_095, 3, "5998 1 1 score 0 0 open\n"),
    (6_000, 1_000, 7, "5998 1 1 score 0 0 open\n"),
    (65_535, 70_000, 2, "65533 1 1 score 0 0 open\n"),
    (65_536, 70_000, 2, "65534 1 1 score 0 0 open\n"),
    (65_537, 70_000, 3, "65535 1 1 score 0 0 open\n"),
    (65_537, 65_535, 3, "65535 1 1 score 0 0 open\n"),
    (131_072, 70_000, 3, "131070 1 1 score 0 0 open\n"),
    (131_073, 70_000, 4, "131071 1 1 score 0 0 open\n"),
    (131_073, 65_535, 4, "131071 1 1 score 0 0 open\n"),
    (200_000, 30_000, 8, "199998 1 1 score 0 0 open\n"),
];

/// Counts each text from two sources, and splits it.
pub fn calls(alloc: Global, seen: &mut Seen) {
    for &read in &READS {
        seen.growth("counting long texts");
        counted(alloc, read, true, seen);
        counted(alloc, read, false, seen);
        seen.growth("");
        splits(alloc, read, seen);
    }
}

/// A source that gives a game of one empty node, at most `step` bytes at a time. There are line feeds before the node.
#[derive(Drop)]
struct LineFeeds {
    length: usize,
    step: usize,
    /// Whether it fails when it is asked again after it was at its end. If not, it gives a byte more then.
    fails_late: bool,
    /// How many bytes it has given.
    given: usize,
    /// How often it was asked.
    asked: u32,
    /// Whether the last call found it at its end.
    has_ended: bool,
    failures: u64,
}

/// A source of a text that is read so.
fn source_of(read: Read, fails_late: bool) -> LineFeeds
    ensures { result.failures ≡ 0 }
{
    let (length, step, _, _) = read;
    LineFeeds {
        length,
        step,
        fails_late,
        given: 0,
        asked: 0,
        has_ended: false,
        failures: 0,
    }
}

impl Source for LineFeeds {
    ghost state = { λ s. record { failures = s.failures; given = None; to_come = None } };

    fn get(&mut self, buffer: &mut [u8]) -> Result<usize, SourceFault> {
        self.asked = self.asked.saturating_add(1);
        if self.failures > 0 || self.has_ended && self.fails_late {
            self.failures += 1;
            return Err(SourceFault);
        }
        if self.has_ended {
            self.has_ended = false;
            buffer[0] = b'(';
            return Ok(1);
        }
        let left = self.length.saturating_sub(self.given);
        let count = left.min(self.step).min(buffer.len());
        if count == 0 {
            self.has_ended = true;
            return Ok(0);
        }
        buffer[..count].fill(b'\n');
        if self.given == 0 {
            buffer[0] = b'(';
        }
        if count == left {
            buffer[count - 1] = b')';
        }
        if left > 1 && count + 1 >= left {
            buffer[left - 2] = b';';
        }
        self.given = self.given.saturating_add(count);
        Ok(count)
    }

    fn failures(&self) -> u64 {
        self.failures
    }
}

/// Counts a text, and counts it again if memory was refused. There must be one game of one node, and the source must have been asked as
/// often as needed.
fn counted(alloc: Global, read: Read, fails_late: bool, seen: &mut Seen) {
    seen.call();
    let mut source = source_of(read, fails_late);
    let mut answer = count(alloc, &mut source);
    if let Err(RunFault::Memory { .. }) = answer {
        seen.want();
        source = source_of(read, fails_late);
        answer = count(alloc, &mut source);
    }
    let counts = Counts {
        games: 1,
        nodes: 1,
        lines: 1,
    };
    seen.right(answer == Ok(counts), "the counts of a long text");
    seen.right(source.asked == read.2, "how often a count asks");
}

/// Splits a text, and splits it again if memory was refused. There must be one row, and the source must have been asked as often as needed.
fn splits(alloc: Global, read: Read, seen: &mut Seen) {
    seen.call();
    let mut source = source_of(read, false);
    let mut page = Page::new();
    let mut answer = split(alloc, &mut source, &mut page, &LIST);
    if let Err(RunFault::Memory { .. }) = answer {
        seen.want();
        source = source_of(read, false);
        page = Page::new();
        answer = split(alloc, &mut source, &mut page, &LIST);
    }
    seen.right(answer == Ok(1), "the line of a long text");
    let is_whole = page.flushes() == 1 && page.as_slice() == read.3.as_bytes();
    seen.right(is_whole, "the row of a long text");
    seen.right(source.asked == read.2, "how often a run asks");
}
