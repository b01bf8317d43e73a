//! One job on one text.

ghost use Rattle.std.specs.Prelude.{◌<◌};

use crate::digest::Digest;
use sgf_lines::{BufferedSink, ReadSource, SliceSource, Source, WriteSink};
use sgfsplit_job::{Job, act, job};
use std::alloc::{AllocError, Global};

/// A job that is done on one text after another.
#[derive(Drop)]
pub(crate) struct Asked {
    /// `None` if memory was refused, or if the words ask for no job.
    job: Option<Job>,
}

impl Asked {
    /// The job that the words of a command line ask for, the name of the program first.
    pub(crate) fn new(alloc: Global, words: &[&str]) -> Asked {
        let job = match strings(alloc, words) {
            Ok(given) => job(alloc, &given).ok(),
            Err(_) => None,
        };
        Asked { job }
    }

    /// Does the job on a text, and adds to the digest what was written and the status. If `is_read`, a reader gives the text piece by piece,
    /// as a file does.
    pub(crate) fn run(
        &self,
        alloc: Global,
        text: &[u8],
        is_read: bool,
        digest: &mut Digest,
    ) -> Result<(), AllocError> {
        if is_read {
            return self.run_on(alloc, &mut ReadSource::new(text), digest);
        }
        self.run_on(alloc, &mut SliceSource::new(text), digest)
    }

    /// Does the job on what a source gives.
    fn run_on<S: Source>(
        &self,
        alloc: Global,
        source: &mut S,
        digest: &mut Digest,
    ) -> Result<(), AllocError>
        requires { (S.state source.old).failures < u64.MAX }
    {
        let Some(job) = &self.job else {
            return Err(AllocError);
        };
        let mut output = BufferedSink::new(alloc, Digest::new())?;
        let mut faults = WriteSink::new(Digest::new());
        let status = act(alloc, job, source, &mut output, &mut faults);
        digest.add(u64::from(status));
        digest.add(output.into_inner().value());
        digest.add(faults.into_inner().value());
        Ok(())
    }
}

/// These words as strings.
fn strings(alloc: Global, words: &[&str]) -> Result<Vec<String>, AllocError> {
    let mut strings: Vec<String> = Vec::new(alloc);
    for word in words {
        strings.push(String::from_str(alloc, word)?)?;
    }
    Ok(strings)
}
