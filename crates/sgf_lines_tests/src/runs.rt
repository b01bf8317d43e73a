//! Runs to which memory may be refused.

use crate::page::Page;
use crate::seen::Seen;
use crate::tree::TWO;
use sgf_lines::{Form, Options, Plays, RunFault, SliceSource, split, split_counted};
use std::alloc::Global;

/// A game with setup, a comment of two lines, a pass and a stone.
const COMMENT: &[u8] = b"(;SZ[5]AB[ab][ba]AW[cc]C[one\ntwo];W[];B[ee])";

/// Two lines that share an illegal node.
const ILLEGAL: &[u8] = b"(;SZ[1];B[aa](;W[])(;C[x]))";

/// Three lines that share a pass. The last line has a setup.
const PASSES: &[u8] = b"(;SZ[3];B[](;W[])(;W[bb])(;AE[aa];W[]))";

/// Two games of one line each.
const TWO_GAMES: &[u8] = b"(;SZ[1])(;SZ[2])";

/// Two lines of a game other than Go.
const OTHER_GAME: &[u8] = b"(;GM[2](;)(;))";

/// The row of the first line of `TWO`.
pub const FIRST: &[u8] = b"8 1 2 score 9 0 open\n";

/// The row of its second line.
pub const SECOND: &[u8] = b"22 1 3 score 1 1 open\n";

const SCRIPT: &[u8] =
    b"# 37 1 3 score 4 1 open\nboardsize 5\nclear_board\n# one\n# two\nclear_board\nplay B B5\nplay B A4\nplay W C3\nplay W pass\nplay B E1\n\n";

/// The options for all lines as rows.
pub const LIST: Options = Options {
    form: Form::List,
    after: None,
    limit: None,
};

/// The options for all lines as games.
const SGF: Options = Options {
    form: Form::Sgf,
    after: None,
    limit: None,
};

/// The options for all lines as scripts.
const GTP: Options = Options {
    form: Form::Gtp,
    after: None,
    limit: None,
};

/// What a run reads, and what it writes.
struct Run {
    text: &'static [u8],
    options: Options,
    /// The records, in order.
    records: &'static [&'static [u8]],
    /// How many nodes are played for the first 0, 1, 2 .. records.
    plays: &'static [u64],
}

/// Pages of the game of two lines, and all lines of other games.
const RUNS: [Run; 12] = [
    Run {
        text: TWO,
        options: LIST,
        records: &[FIRST, SECOND],
        plays: &[0, 2, 4],
    },
    Run {
        text: TWO,
        options: Options {
            form: Form::List,
            after: Some(8),
            limit: None,
        },
        records: &[SECOND],
        plays: &[0, 3],
    },
    Run {
        text: TWO,
        options: Options {
            form: Form::List,
            after: Some(22),
            limit: None,
        },
        records: &[],
        plays: &[0],
    },
    Run {
        text: TWO,
        options: Options {
            form: Form::List,
            after: None,
            limit: Some(1),
        },
        records: &[FIRST],
        plays: &[0, 2],
    },
    Run {
        text: TWO,
        options: Options {
            form: Form::List,
            after: None,
            limit: Some(0),
        },
        records: &[],
        plays: &[0],
    },
    Run {
        text: TWO,
        options: Options {
            form: Form::List,
            after: Some(8),
            limit: Some(1),
        },
        records: &[SECOND],
        plays: &[0, 3],
    },
    Run {
        text: COMMENT,
        options: GTP,
        records: &[SCRIPT],
        plays: &[0, 3],
    },
    Run {
        text: ILLEGAL,
        options: LIST,
        records: &[
            b"14 1 3 illegal 1 7 repeat\n",
            b"20 1 3 illegal 1 7 repeat\n",
        ],
        plays: &[0, 2, 2],
    },
    Run {
        text: PASSES,
        options: LIST,
        records: &[
            b"12 1 3 score 0 0 over\n",
            b"18 1 3 score 0 9 open\n",
            b"33 1 4 score 0 0 open\n",
        ],
        plays: &[0, 3, 4, 6],
    },
    Run {
        text: PASSES,
        options: SGF,
        records: &[
            b"(;SZ[3];B[];W[])\n",
            b"(;SZ[3];B[];W[bb])\n",
            b"(;SZ[3];B[];AE[aa];W[])\n",
        ],
        plays: &[0, 0, 0, 0],
    },
    Run {
        text: TWO_GAMES,
        options: GTP,
        records: &[
            b"# 1 1 1 score 0 0 open\nboardsize 1\nclear_board\n\n",
            b"# 9 2 1 score 0 0 open\nboardsize 2\nclear_board\n\n",
        ],
        plays: &[0, 1, 2],
    },
    Run {
        text: OTHER_GAME,
        options: LIST,
        records: &[b"8 1 2 unjudged game\n", b"11 1 2 unjudged game\n"],
        plays: &[0, 0, 0],
    },
];

/// Makes each run, first without and then with a count of plays.
pub fn calls(alloc: Global, seen: &mut Seen) {
    for run in &RUNS {
        splits(alloc, run, false, seen);
        splits(alloc, run, true, seen);
    }
}

/// Splits a text, and splits it once more if memory was refused.
fn splits(alloc: Global, run: &Run, is_counted: bool, seen: &mut Seen) {
    seen.call();
    if !splits_once(alloc, run, is_counted, seen) {
        let is_whole = splits_once(alloc, run, is_counted, seen);
        seen.right(is_whole, "a run was refused memory twice");
    }
}

/// Splits a text. Returns false if memory was refused.
fn splits_once(alloc: Global, run: &Run, is_counted: bool, seen: &mut Seen) -> bool {
    let mut source = SliceSource::new(run.text);
    let mut page = Page::new();
    let mut plays = Plays::new();
    let answer = if is_counted {
        split_counted(alloc, &mut source, &mut page, &run.options, &mut plays)
    } else {
        split(alloc, &mut source, &mut page, &run.options)
    };
    if let Err(RunFault::Memory { lines }) = answer {
        is_cut(lines, &page, run, seen);
        let next = lines.saturating_add(1).min(run.records.len() as u64);
        let least = plays_of(run, lines, is_counted);
        let most = plays_of(run, next, is_counted);
        seen.right(least <= plays.count(), "plays of the lines");
        seen.right(plays.count() <= most, "plays of the next line");
        return false;
    }
    is_whole(answer, &page, run, seen);
    let all = plays_of(run, run.records.len() as u64, is_counted);
    seen.right(plays.count() == all, "the plays");
    true
}

/// How many nodes are played for the first `lines` records; 0 if they aren't counted.
fn plays_of(run: &Run, lines: u64, is_counted: bool) -> u64 {
    match run.plays.get(lines as usize) {
        Some(plays) if is_counted => *plays,
        Some(_) => 0,
        None => u64::MAX,
    }
}

/// The run must have written the first `lines` records, whole ones and nothing else, and not flushed.
fn is_cut(lines: u64, page: &Page, run: &Run, seen: &mut Seen) {
    seen.want();
    seen.right(page.flushes() == 0, "a flush after refused memory");
    let are_first = has_first(page.as_slice(), run.records, lines);
    seen.right(are_first, "records after refused memory");
}

/// The run must have written all records, and flushed once.
fn is_whole(answer: Result<u64, RunFault>, page: &Page, run: &Run, seen: &mut Seen) {
    let lines = run.records.len() as u64;
    seen.right(answer == Ok(lines), "the answer of a run");
    let are_all = has_first(page.as_slice(), run.records, lines);
    seen.right(are_all, "the records");
    seen.right(page.flushes() == 1, "one flush");
}

/// Whether these bytes are exactly the first `lines` records.
fn has_first(bytes: &[u8], records: &[&[u8]], lines: u64) -> bool {
    if lines > records.len() as u64 {
        return false;
    }
    let mut rest = bytes;
    for record in &records[..lines as usize] {
        match rest.strip_prefix(*record) {
            Some(after) => rest = after,
            None => return false,
        }
    }
    rest.is_empty()
}
