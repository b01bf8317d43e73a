//! The jobs of `sgfsplit`: one splits a collection into its lines of play, the other counts its games, nodes and lines.
//!
//! - `command` describes the command line to clap. `words` finds the job that its words ask for, and `jobs` has the type of a job.
//! - `acts` does a job over a source and two sinks, and returns the status. It also reports faults, and shows clap's text.
//! - `fault` has the status and the row of each fault. `short_text` builds such a row without allocating memory.
#![tactic(auto)]

mod acts;
mod command;
mod fault;
mod jobs;
mod short_text;
mod words;

pub use acts::{act, show, tell};
pub use fault::Fault;
pub use jobs::{Job, JobFault};
pub use words::job;
