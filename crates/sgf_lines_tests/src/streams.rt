//! Runs whose source gives little at a time and then fails, or whose sink takes little at a time and then fails. A source that is asked for
//! all at once.

ghost use Rattle.std.specs.Prelude.{◌≡◌, ◌≤◌, None, []};

use crate::runs::{FIRST, LIST, SECOND};
use crate::seen::Seen;
use crate::tree::TWO;
use sgf_lines::{
    ArraySink, RunFault, Sink, SinkFault, SliceSource, Source, SourceFault, count, split,
};
use std::alloc::Global;

/// The length of the two rows in bytes.
const LENGTH: usize = FIRST.len() + SECOND.len();

/// Makes the runs.
pub fn calls(alloc: Global, seen: &mut Seen) {
    for calls in 0..TWO.len() + 2 {
        source_fails(alloc, calls, seen);
        count_fails(alloc, calls, seen);
    }
    for &step in &[1, 7, 64] {
        for room in 0..LENGTH + 1 {
            sink_fails(alloc, step, room, false, seen);
            sink_fails(alloc, step, room, true, seen);
        }
    }
    array_is_full(alloc, seen);
    rest_at_once(seen);
}

/// A source that gives one byte of a text at each call, for `calls` calls, and then fails.
#[derive(Drop)]
struct Trickle<'a> {
    left: &'a [u8],
    calls: usize,
    failures: u64,
}

/// A new `Trickle` of the game of two lines, which fails after `calls` calls.
fn byte_by_byte(calls: usize) -> Trickle<'static>
    ensures { result.failures ≡ 0 }
{
    Trickle {
        left: TWO,
        calls,
        failures: 0,
    }
}

impl Source for Trickle<'_> {
    ghost state = { λ s. record { failures = s.failures; given = None; to_come = None } };

    fn get(&mut self, buffer: &mut [u8]) -> Result<usize, SourceFault> {
        if self.calls == 0 || self.failures > 0 {
            self.failures += 1;
            return Err(SourceFault);
        }
        self.calls -= 1;
        let Some((first, rest)) = self.left.split_first() else {
            return Ok(0);
        };
        buffer[0] = *first;
        self.left = rest;
        Ok(1)
    }

    fn failures(&self) -> u64 {
        self.failures
    }
}

/// A run whose source fails after so many calls. The run must fail and
/// write nothing, unless the source gets to its end first.
fn source_fails(alloc: Global, calls: usize, seen: &mut Seen) {
    seen.call();
    let mut source = byte_by_byte(calls);
    let mut sink = ArraySink::<64>::new();
    let answer = split(alloc, &mut source, &mut sink, &LIST);
    let fails = calls <= TWO.len();
    let written = sink.as_slice().len();
    match answer {
        Err(RunFault::Memory { .. }) => seen.want(),
        Err(RunFault::Read) => seen.right(fails && written == 0, "a failed read"),
        Ok(2) => seen.right(!fails && written == LENGTH, "a byte a read"),
        _ => seen.wrong("a run whose source fails"),
    }
}

/// A source over bytes in memory that has given its first 3 bytes. It gives the rest at once unless fewer bytes are asked for, and then
/// it is at its end.
fn rest_at_once(seen: &mut Seen) {
    let mut source = SliceSource::new(TWO);
    let mut first = [0u8; 3];
    seen.right(source.get(&mut first) == Ok(3), "the first bytes");
    let left = TWO.len() - 3;
    seen.right(
        source.give_rest(left - 1).is_none(),
        "more bytes at once than asked for",
    );
    seen.right(
        source.give_rest(left) == Some(&TWO[3..]),
        "the other bytes at once",
    );
    seen.right(source.get(&mut first) == Ok(0), "bytes given twice");
    nothing_at_once(seen);
}

/// A source that has no bytes in memory gives none at once.
fn nothing_at_once(seen: &mut Seen) {
    let mut slow = byte_by_byte(3);
    let none = slow.give_rest(usize::MAX).is_none();
    seen.right(none && slow.calls == 3, "bytes that are not in memory");
}

/// A count whose source fails after so many calls.
fn count_fails(alloc: Global, calls: usize, seen: &mut Seen) {
    seen.call();
    let mut source = byte_by_byte(calls);
    let fails = calls <= TWO.len();
    match count(alloc, &mut source) {
        Err(RunFault::Memory { .. }) => seen.want(),
        Err(RunFault::Read) => seen.right(fails, "a failed read of a count"),
        Ok(counts) => seen.right(!fails && counts.lines == 2, "a count by a byte a read"),
        Err(_) => seen.wrong("a count whose source fails"),
    }
}

/// A sink that takes at most `step` bytes at a call and `room` bytes in all, and then fails. Its flush fails unless `can_flush`.
#[derive(Drop)]
struct Narrow {
    bytes: [u8; 64],
    taken: usize,
    step: usize,
    room: usize,
    can_flush: bool,
    failures: u64,
    ghost within: { taken ≤ 64 },
}

/// A new `Narrow`, which has taken nothing.
fn sink_of(step: usize, room: usize, can_flush: bool) -> Narrow
    ensures { result.failures ≡ 0 }
{
    Narrow {
        bytes: [0; 64],
        taken: 0,
        step,
        room,
        can_flush,
        failures: 0,
    }
}

impl Sink for Narrow {
    ghost state = { λ s. record { failures = s.failures; taken = None; delivered = None } };

    ghost delivers_front = { λ _. ([], tt) };

    fn put(&mut self, bytes: &[u8]) -> Result<usize, SinkFault> {
        let count = bytes
            .len()
            .min(self.step)
            .min(self.room)
            .min(64 - self.taken);
        if count == 0 || self.failures > 0 {
            self.failures += 1;
            return Err(SinkFault);
        }
        self.bytes[self.taken..self.taken + count].copy_from_slice(&bytes[..count]);
        self.taken += count;
        self.room -= count;
        Ok(count)
    }

    fn flush(&mut self) -> Result<(), SinkFault> {
        if self.can_flush && self.failures == 0 {
            return Ok(());
        }
        self.failures += 1;
        Err(SinkFault)
    }

    fn failures(&self) -> u64 {
        self.failures
    }
}

/// A run to a sink with this room. The run must fail, unless all fits and the sink can flush. The sink must have what fits, and the fault
/// the number of whole records.
fn sink_fails(alloc: Global, step: usize, room: usize, can_flush: bool, seen: &mut Seen) {
    seen.call();
    let mut source = SliceSource::new(TWO);
    let mut sink = sink_of(step, room, can_flush);
    let answer = split(alloc, &mut source, &mut sink, &LIST);
    if let Err(RunFault::Memory { .. }) = answer {
        return seen.want();
    }
    let fits = is_front(&sink.bytes[..sink.taken], room);
    seen.right(fits, "what a narrow sink has taken");
    let lines = whole(room);
    let wanted = if can_flush && lines == 2 {
        Ok(2)
    } else {
        Err(RunFault::Write { lines })
    };
    seen.right(answer == wanted, "the answer of a run to a narrow sink");
}

/// A run to an array that has no room for the whole second row. The array takes what fits.
fn array_is_full(alloc: Global, seen: &mut Seen) {
    seen.call();
    let mut source = SliceSource::new(TWO);
    let mut sink = ArraySink::<30>::new();
    match split(alloc, &mut source, &mut sink, &LIST) {
        Err(RunFault::Memory { .. }) => seen.want(),
        Err(RunFault::Write { lines }) => {
            let fits = is_front(sink.as_slice(), 30);
            seen.right(lines == 1 && fits, "a full array");
        }
        _ => seen.wrong("a run to an array that is too short"),
    }
}

/// How many whole rows fit into this many bytes.
fn whole(room: usize) -> u64 {
    u64::from(room >= FIRST.len()) + u64::from(room >= LENGTH)
}

/// Whether these are the first `count` bytes of the two rows.
fn is_front(bytes: &[u8], count: usize) -> bool {
    if bytes.len() != count || count > LENGTH {
        return false;
    }
    if count <= FIRST.len() {
        return bytes == &FIRST[..count];
    }
    let (first, second) = bytes.split_at(FIRST.len());
    first == FIRST && second == &SECOND[..second.len()]
}
