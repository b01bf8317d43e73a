//! Examples of `sgfsplit_job`. A job over a text in memory is proved to write what was asked for. Tests check what no clause
//! says: how many calls a job makes of its reader and its writers. The reader and the writers count these calls, and may fail.
//!
//! | Module | What it has |
//! |---|---|
//! | `in_memory` | a job over a text in memory, done as the program does it over its streams |
//! | `streams` | a reader and a writer that count their calls, and may fail |
//! | `jobs` | jobs over such a reader and such writers: how many calls are made, and that none follows a failure |
//! | `words` | the jobs that words ask for |
//! | `examples` | the functions of the example `lines_in_memory` |
#![tactic(auto)]

#[cfg(test)]
mod examples;
mod in_memory;
#[cfg(test)]
mod jobs;
#[cfg(test)]
mod streams;
#[cfg(test)]
mod words;

pub use in_memory::{Done, done_in_memory};
