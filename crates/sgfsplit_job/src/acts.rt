//! Does a job, or shows clap's text. Both return the exit status, and put the row of a fault on the sink for faults.

ghost use Rattle.std.specs.Prelude.{◌≡◌, ◌<◌, ◌+◌, OnOk, is_ok};
ghost use Rattle.std.specs.Result.{result_err};
ghost use Rattle.clap.specs.Values.{kind_of};
ghost use Rattle.sgf_lines.specs.Answer.{reads_failed, writes_failed};
ghost use Rattle.byte_streams.specs.Streams.{HasDelivered};
ghost use Rattle.sgfsplit_job.specs.Act.{DoesJob, IsAct, Shows, TakesText, Tells};

use crate::fault::Fault;
use crate::jobs::Job;
use clap::Error;
use sgf_lines::{RunFault, Sink, SinkFault, Source, count, put_all, split, write_counts};
use std::alloc::Global;

/// Does a job, reports its fault if there is one, and returns the exit status.
///
/// With status 0 the output has delivered all that it took, and `faults` is unchanged. With another
/// status the output has taken what was written before the fault. After refused memory the output is
/// flushed, so that whole records are delivered. If that flush fails, the status is the same.
///
/// The row of a fault goes to `faults`, which is flushed. If `faults` fails, the status is the same.
pub fn act<S: Source, T: Sink, E: Sink>(
    alloc: Global,
    job: &Job,
    source: &mut S,
    output: &mut T,
    faults: &mut E,
) -> u8
    requires source_counts { (S.state source.old).failures < u64.MAX }
    requires output_counts { (T.state output.old).failures < u64.MAX }
    requires faults_count { (E.state faults.old).failures < u64.MAX }
    ensures { IsAct job.now (S.state source.old) (S.state source.new) (T.state output.old) (T.state output.new)
        (E.state faults.old) (E.state faults.new) result }
{
    match do_job(alloc, job, source, output) {
        Ok(()) => 0,
        Err(fault) => {
            if let RunFault::Memory { .. } = fault {
                let _ = output.flush();
            }
            tell(&Fault::Run(fault), faults)
        }
    }
}

/// Does the job over the source and the output, to its end or up to a fault.
fn do_job<S: Source, T: Sink>(
    alloc: Global,
    job: &Job,
    source: &mut S,
    output: &mut T,
) -> Result<(), RunFault>
    requires source_counts { (S.state source.old).failures < u64.MAX }
    requires output_counts { (T.state output.old).failures < u64.MAX }
    ensures does { DoesJob job.now (S.state source.old) (S.state source.new)
        (T.state output.old) (T.state output.new) (result_err result) }
    ensures delivered { OnOk result (HasDelivered (T.state output.new)) }
    ensures reads { (S.state source.new).failures ≡ (S.state source.old).failures + reads_failed (result_err result) }
    ensures writes { (T.state output.new).failures ≡ (T.state output.old).failures + writes_failed (result_err result) }
{
    match job {
        Job::Split { options, .. } => {
            split(alloc, source, output, options)?;
            Ok(())
        }
        Job::Count { .. } => {
            let counts = count(alloc, source)?;
            write_counts(output, &counts)
        }
    }
}

/// Reports a fault: puts its row on the sink for faults, flushes that sink, and returns the status of the fault.
/// If that sink fails, no more of the row is put, and the status is the same.
pub fn tell<E: Sink>(fault: &Fault, faults: &mut E) -> u8
    requires { (E.state faults.old).failures < u64.MAX }
    ensures { Tells fault.now (E.state faults.old) (E.state faults.new) result }
{
    let _ = put_text(fault.row().as_bytes(), faults);
    fault.status()
}

/// Shows clap's text, and returns the exit status.
///
/// - If the kind of the error is help or the version, the text goes to `output`, with status 0. If
///   `output` fails, that is reported as a failed write, with status 3.
/// - The text of a mistake in the words goes to `faults`, with status 2, even if `faults` fails.
/// - If memory for the text is refused, that is reported with status 4.
pub fn show<T: Sink, E: Sink>(alloc: Global, error: &Error, output: &mut T, faults: &mut E) -> u8
    requires output_counts { (T.state output.old).failures < u64.MAX }
    requires faults_count { (E.state faults.old).failures < u64.MAX }
    ensures { Shows (kind_of error.now) (T.state output.old) (T.state output.new)
        (E.state faults.old) (E.state faults.new) result }
{
    let Ok(text) = format!(in alloc; "{error}") else {
        return tell(&Fault::OUT_OF_MEMORY, faults);
    };
    if error.exit_code() != 0 {
        let _ = put_text(text.as_bytes(), faults);
        return 2;
    }
    if put_text(text.as_bytes(), output).is_ok() {
        return 0;
    }
    tell(&Fault::Run(RunFault::Write { lines: 0 }), faults)
}

/// Puts a whole text and flushes the sink, or stops at the first failure.
fn put_text<T: Sink>(text: &[u8], sink: &mut T) -> Result<(), SinkFault>
    requires { (T.state sink.old).failures < u64.MAX }
    ensures { TakesText text.now (T.state sink.old) (T.state sink.new) (is_ok result) }
{
    put_all(text, sink)?;
    sink.flush()
}
