//! What a command line asks for: a job of the program.

ghost use Rattle.std.specs.Prelude.{◌≡◌, option_map, string_bytes};
ghost use Rattle.sgfsplit_job.specs.Act.{job_file};
ghost use Rattle.sgfsplit_job.specs.CommandLine.{IsFaultOf};
ghost use Rattle.sgfsplit_job.specs.declared.jobs.JobFault.TheVariants.{Memory};

use clap::Error;
use clap::error::ErrorKind;
use sgf_lines::Options;
use std::alloc::AllocError;

/// What the words ask for. A file is named by its path; None is standard input.
#[derive(Debug, Drop)]
pub enum Job {
    /// Write the lines of play of a collection.
    Split {
        options: Options,
        file: Option<String>,
    },
    /// Count the games, the nodes and the lines of play of a collection.
    Count {
        file: Option<String>,
    },
}

impl Job {
    /// The path of the file; None for standard input.
    pub fn file(&self) -> Option<&str>
        ensures { option_map (λ name. name.now) result ≡ option_map string_bytes (job_file self.now) }
    {
        match self {
            Job::Split { file, .. } | Job::Count { file } => file.as_deref(),
        }
    }
}

/// Why there is no job.
#[derive(Debug, Drop)]
pub enum JobFault {
    /// The words ask for no job of the program, or for help. The error has clap's text and status.
    Words(Error),
    /// Memory was refused.
    Memory,
}

impl From<AllocError> for JobFault {
    ghost from_gives = { λ _ fault. fault ≡ Memory };

    fn from(_refused: AllocError) -> JobFault {
        JobFault::Memory
    }
}

impl From<Error> for JobFault {
    ghost from_gives = { λ error fault. IsFaultOf error fault };

    fn from(error: Error) -> JobFault {
        match error.kind() {
            ErrorKind::OutOfMemory => JobFault::Memory,
            _ => JobFault::Words(error),
        }
    }
}
