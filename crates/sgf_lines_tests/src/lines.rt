//! Calls of `sgf_lines` that go over, seek, follow, judge and count lines.

use crate::page::Page;
use crate::seen::Seen;
use crate::tree::{TWO, collection};
use go_board::Reason;
use sgf_lines::{
    ArraySink, Counts, Cursor, Follower, LineRef, RunFault, SeekFault, SliceSource, Verdict, count,
    judge, write_counts,
};
use sgf_tree::Collection;
use std::alloc::Global;

/// A game of three nodes, whose last node, at place 45, retakes a ko.
const KO: &[u8] = b"(;SZ[4]AB[ba][ab][bc]AW[ca][db][cc][bb];B[cb];W[bb])";

/// Makes the calls.
pub fn calls(alloc: Global, seen: &mut Seen) {
    if let Ok(two) = collection(alloc, TWO, seen) {
        goes_over(alloc, &two, seen);
        follows(alloc, &two, seen);
        let score = Verdict::Score {
            black: 9,
            white: 0,
            over: false,
        };
        judged(alloc, &two, 1, score, seen);
    }
    if let Ok(ko) = collection(alloc, KO, seen) {
        let repeat = Verdict::Illegal {
            turn: 2,
            place: 45,
            reason: Reason::Repeat,
        };
        judged(alloc, &ko, 2, repeat, seen);
    }
    counts(alloc, seen);
}

/// The place of no line.
const NONE: u64 = 0;

/// The place that a cursor seeks first, unless it is `NONE`, and then the place of the line that comes next; `NONE` if no line is left.
type Step = (u64, u64);

/// Goes over both lines. Two more calls must then find the end.
const BOTH: [Step; 4] = [(NONE, 8), (NONE, 22), (NONE, NONE), (NONE, NONE)];

/// Seeks the places of both lines, and a place that no line has.
const PLACES: [Step; 3] = [(8, 22), (16, NONE), (22, NONE)];

/// Goes over the lines of the game of two lines, and seeks places.
fn goes_over(alloc: Global, two: &Collection<'_>, seen: &mut Seen) {
    goes(alloc, two, &BOTH, seen);
    goes(alloc, two, &PLACES, seen);
    let mut cursor = Cursor::new(alloc, two.outline());
    next(&mut cursor, 8, seen);
    // If memory is refused to the seek, the cursor stays before the second line.
    if cursor.seek_after(22).is_err() {
        seen.want();
        next(&mut cursor, 22, seen);
    } else {
        goes(alloc, two, &BOTH[..2], seen);
    }
}

/// Takes these steps with a new cursor.
fn goes(alloc: Global, two: &Collection<'_>, steps: &[Step], seen: &mut Seen) {
    let mut cursor = Cursor::new(alloc, two.outline());
    for &(sought, line) in steps {
        if sought != NONE {
            seek(&mut cursor, sought, seen);
        }
        next(&mut cursor, line, seen);
    }
}

/// Goes on by one line, which must have this place. If memory was refused, the second call must give that line.
fn next(cursor: &mut Cursor<'_, '_>, place: u64, seen: &mut Seen) {
    seen.call();
    if let Ok(given) = cursor.next() {
        return seen.right(is_line(given, place), "a line");
    }
    seen.want();
    match cursor.next() {
        Ok(given) => seen.right(is_line(given, place), "a line after a refused one"),
        Err(_) => seen.wrong("a line was refused twice"),
    }
}

/// Whether `given` is the line of `TWO` with this place, in the first game; or there is none, and the place is `NONE`.
fn is_line(given: Option<LineRef<'_>>, place: u64) -> bool {
    let path: &[usize] = if place == 8 { &[0, 1] } else { &[0, 2, 3] };
    match given {
        Some(line) => line.path() == path && line.game() == 1 && line.place() == place,
        None => place == NONE,
    }
}

/// Seeks a place, which must be that of a line unless it is 16. If memory was refused, seeks once more.
fn seek(cursor: &mut Cursor<'_, '_>, place: u64, seen: &mut Seen) {
    seen.call();
    let mut sought = cursor.seek_after(place);
    if sought == Err(SeekFault::Memory) {
        seen.want();
        sought = cursor.seek_after(place);
    }
    let answer = if place == 16 {
        Err(SeekFault::NoSuchLine { place })
    } else {
        Ok(())
    };
    seen.right(sought == answer, "a place");
}

/// The scores of Black and White at the end of a line, and the line's place; `NONE` if no line is left.
type Followed = (u32, u32, u64);

/// The lines of the game of two lines, and their end.
const FOLLOWED: [Followed; 3] = [(9, 0, 8), (1, 1, 22), (0, 0, NONE)];

/// Follows both lines of the game of two lines. The next call must find the end. Then follows the line after the first.
fn follows(alloc: Global, two: &Collection<'_>, seen: &mut Seen) {
    let mut follower = Follower::new(alloc, two.outline());
    follow(&mut follower, &FOLLOWED, seen);
    let mut cursor = Cursor::new(alloc, two.outline());
    seek(&mut cursor, 8, seen);
    let mut follower = Follower::after(alloc, cursor);
    follow(&mut follower, &FOLLOWED[1..], seen);
}

/// Follows lines, which must be these. If memory was refused, the second call must give the same line.
fn follow(follower: &mut Follower<'_, '_>, lines: &[Followed], seen: &mut Seen) {
    for &line in lines {
        seen.call();
        if !follows_one(follower, line, seen) {
            seen.want();
            let is_given = follows_one(follower, line, seen);
            seen.right(is_given, "a line was refused twice");
        }
    }
}

/// Follows a line, which must be this one. Returns false if memory was refused.
fn follows_one(follower: &mut Follower<'_, '_>, line: Followed, seen: &mut Seen) -> bool {
    let (black, white, place) = line;
    let score = Verdict::Score {
        black,
        white,
        over: false,
    };
    let is_line = match follower.next() {
        Ok(Some(verdict)) => verdict == score && follower.line().place() == place,
        Ok(None) => place == NONE,
        Err(_) => return false,
    };
    seen.right(is_line, "a line followed");
    true
}

/// Judges the line that ends in this leaf. If memory was refused, judges it once more.
fn judged(
    alloc: Global,
    collection: &Collection<'_>,
    leaf: usize,
    verdict: Verdict,
    seen: &mut Seen,
) {
    if leaf >= collection.nodes() || !collection.is_leaf(leaf) {
        return seen.wrong("no leaf");
    }
    seen.call();
    if let Ok(given) = judge(alloc, collection, leaf) {
        return seen.right(given == verdict, "a verdict");
    }
    seen.want();
    match judge(alloc, collection, leaf) {
        Ok(given) => seen.right(given == verdict, "a verdict after a refused one"),
        Err(_) => seen.wrong("a verdict was refused twice"),
    }
}

/// Counts the game of two lines, and counts again if memory was refused. Then writes the counts, which takes no memory.
fn counts(alloc: Global, seen: &mut Seen) {
    let mut source = SliceSource::new(TWO);
    seen.call();
    let counted = match count(alloc, &mut source) {
        Err(RunFault::Memory { lines: 0 }) => {
            seen.want();
            let mut source = SliceSource::new(TWO);
            count(alloc, &mut source)
        }
        counted => counted,
    };
    let counts = Counts {
        games: 1,
        nodes: 4,
        lines: 2,
    };
    seen.right(counted == Ok(counts), "counts");
    let mut page = Page::new();
    seen.call();
    let written = write_counts(&mut page, &counts);
    seen.right(written == Ok(()), "counts written");
    let is_row = page.as_slice() == b"1 4 2\n".as_slice();
    seen.right(is_row, "the row of counts");
    seen.right(page.flushes() == 1, "one flush of counts");
    counts_without_room(&counts, seen);
}

/// Writes counts to an array in which their row doesn't fit.
fn counts_without_room(counts: &Counts, seen: &mut Seen) {
    let mut sink = ArraySink::<3>::new();
    seen.call();
    let written = write_counts(&mut sink, counts);
    let is_told = written == Err(RunFault::Write { lines: 0 });
    seen.right(is_told, "counts without room");
    let is_front = sink.as_slice() == b"1 4".as_slice();
    seen.right(is_front, "the front of the row of counts");
}
