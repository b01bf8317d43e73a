//! A job over a text in memory, done as the program does it over its streams.

ghost use Rattle.std.specs.Prelude.{IfOk};
ghost use Rattle.sgfsplit_job_tests.specs.InMemory.{HasWritten};

use sgf_lines::{BufferedSink, SliceSource, WriteSink};
use sgfsplit_job::{Job, act};
use std::alloc::{AllocError, Global};

/// The result of a job: the exit status, and what was written.
#[derive(Drop)]
pub struct Done {
    pub status: u8,
    pub written: Vec<u8>,
}

/// Does a job over a text. With status 0 all that was asked for is written.
pub fn done_in_memory(alloc: Global, job: &Job, text: &[u8]) -> Result<Done, AllocError>
    ensures { IfOk result (λ done. HasWritten job.now text.now done.status done.written.items) }
{
    let mut source = SliceSource::new(text);
    let mut output = BufferedSink::new(alloc, Vec::new(alloc))?;
    let mut faults = WriteSink::new(Vec::new(alloc));
    let status = act(alloc, job, &mut source, &mut output, &mut faults);
    let written = output.into_inner();
    Ok(Done { status, written })
}
