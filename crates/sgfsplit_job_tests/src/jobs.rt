//! Jobs over a reader and writers that count their calls.

use crate::streams::{Reads, Writes};
use sgf_lines::{BufferedSink, Form, Options, ReadSource, WriteSink};
use sgfsplit_job::{Job, act};
use std::alloc::Global;
use std::process::Abort;

/// One game of two lines, whose rows have 43 bytes.
const TWO: &[u8] = b"(;SZ[3](;B[aa])(;B[bb];W[aa]))";

/// What a job reads from and writes to.
#[derive(Drop)]
struct Ends<'a> {
    input: Reads<'a>,
    output: Writes,
    faults: Writes,
}

/// A reader of a text and two writers, none of which fails.
fn ends_of(text: &[u8]) -> Ends<'_> {
    Ends {
        input: Reads {
            left: text,
            calls: 0,
            fails_at: 0,
        },
        output: Writes::new(),
        faults: Writes::new(),
    }
}

/// Splits the input in this form, or counts it if that is None, as the program does, and returns the status.
fn status(rt: &impl Abort, alloc: Global, form: Option<Form>, ends: &mut Ends<'_>) -> usize {
    let job = match form {
        Some(form) => Job::Split {
            options: Options::all(form),
            file: None,
        },
        None => Job::Count { file: None },
    };
    let Ends {
        input,
        output,
        faults,
    } = ends;
    done(rt, alloc, &job, input, output, faults)
}

/// Does a job as the program does, and returns the status.
fn done(
    rt: &impl Abort,
    alloc: Global,
    job: &Job,
    input: &mut Reads<'_>,
    output: &mut Writes,
    faults: &mut Writes,
) -> usize {
    let mut source = ReadSource::new(input);
    let mut output = BufferedSink::new(alloc, output).expect(rt, "room for a sink");
    let mut faults = WriteSink::new(faults);
    usize::from(act(alloc, job, &mut source, &mut output, &mut faults))
}

/// These numbers must be the wanted ones.
fn are(rt: &impl Abort, given: [usize; 3], wanted: [usize; 3]) {
    assert_eq!(rt; given, wanted);
}

#[test]
fn writes_once(rt: HostRuntime) {
    for &(form, bytes) in &[(Some(Form::List), 43), (None, 6)] {
        let mut ends = ends_of(TWO);
        let status = status(&rt, rt.alloc(), form, &mut ends);
        are(
            &rt,
            [status, ends.input.calls, ends.faults.calls],
            [0, 2, 0],
        );
        are(&rt, ends.output.counts(), [1, 1, bytes]);
    }
}

#[test]
fn reads_no_more_after_a_failure(rt: HostRuntime) {
    for fails_at in 1..3 {
        let mut ends = ends_of(TWO);
        ends.input.fails_at = fails_at;
        let status = status(&rt, rt.alloc(), Some(Form::List), &mut ends);
        are(
            &rt,
            [status, ends.input.calls, ends.output.bytes],
            [3, fails_at, 0],
        );
        are(&rt, ends.output.counts(), [0, 0, 0]);
        are(&rt, ends.faults.counts(), [1, 1, 22]);
    }
}

#[test]
fn writes_no_more_after_a_failure(rt: HostRuntime) {
    for fails_at in 1..5 {
        let mut ends = ends_of(TWO);
        ends.output.most = 11;
        ends.output.fails_at = fails_at;
        let status = status(&rt, rt.alloc(), Some(Form::List), &mut ends);
        are(
            &rt,
            [status, ends.output.calls, ends.output.flushes],
            [3, fails_at, 0],
        );
        are(&rt, ends.faults.counts(), [1, 1, 23]);
    }
}

#[test]
fn a_flush_fails_once(rt: HostRuntime) {
    let mut ends = ends_of(TWO);
    ends.output.can_flush = false;
    let status = status(&rt, rt.alloc(), Some(Form::Sgf), &mut ends);
    are(
        &rt,
        [status, ends.output.calls, ends.output.flushes],
        [3, 1, 1],
    );
}

#[test]
fn the_status_stays_where_its_row_fails(rt: HostRuntime) {
    let mut ends = ends_of(b"(;");
    ends.faults.fails_at = 2;
    ends.faults.most = 5;
    let status = status(&rt, rt.alloc(), Some(Form::List), &mut ends);
    are(
        &rt,
        [status, ends.output.calls, ends.output.flushes],
        [1, 0, 0],
    );
    are(&rt, ends.faults.counts(), [2, 0, 5]);
}

/// A text whose first record in sgf form has 100,003 bytes, more than the sink holds; the second record has 4.
fn long_and_short() -> [u8; 100_005] {
    let mut text = [b'x'; 100_005];
    text[..4].copy_from_slice(b"(;C[");
    text[100_000..].copy_from_slice(b"])(;)");
    text
}

#[test]
fn a_long_record_goes_out_whole(rt: HostRuntime) {
    let text = long_and_short();
    let mut ends = ends_of(&text);
    let status = status(&rt, rt.alloc(), Some(Form::Sgf), &mut ends);
    are(
        &rt,
        [status, ends.output.calls, ends.output.bytes],
        [0, 2, 100_007],
    );
}

#[test]
fn no_write_follows_one_of_a_long_record_that_failed(rt: HostRuntime) {
    let text = long_and_short();
    for &(fails_at, bytes) in &[(1, 0), (2, 20_000), (3, 40_000)] {
        let mut ends = ends_of(&text);
        ends.output.most = 20_000;
        ends.output.fails_at = fails_at;
        let status = status(&rt, rt.alloc(), Some(Form::Sgf), &mut ends);
        are(&rt, ends.output.counts(), [fails_at, 0, bytes]);
        are(&rt, [status, ends.faults.calls, 0], [3, 1, 0]);
    }
}
