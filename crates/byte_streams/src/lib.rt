//! Where the bytes of a run come from, and where they go.
//!
//! A [`Source`] gives bytes up to an end, and a [`Sink`] takes bytes and passes them on. Contracts see what a source gave and has still to
//! give, and what a sink took and delivered. So a caller's contract can say which bytes it read and wrote, whatever failed on the way.
//!
//! A source or sink *reports* bytes if contracts can see them. Over bytes in memory it reports all of them. A `ReadSource` reports only the
//! bytes still to come, and only if its reader does. A sink over a writer reports what its writer reports.
//!
//! ```text
//! let mut source = SliceSource::new(b"(;B[aa])");
//! let mut sink = WriteSink::new(&mut output);
//! let count = source.get(&mut buffer)?;
//! put_all(&buffer[..count], &mut sink)?;
//! sink.flush()?;
//! ```
//!
//! | Module | What it has |
//! |---|---|
//! | `source` | what gives bytes; sources over a slice and over a reader |
//! | `sink` | what takes bytes; sinks over a writer, one of which holds bytes back, and over an array; putting bytes until all are taken |
//!
//! `Source::give_rest` is the one shortcut: a source whose bytes lie in memory gives them all without a copy. None from it says nothing,
//! and `Source::get` is the plain way.
//!
//! Only `BufferedSink::new` takes memory. (A reader or writer may take memory of its own, as a vector does.) The crates `sgf_lines_tests`
//! and `sgfsplit_job_tests` make sources and sinks fail at each call.
#![tactic(auto)]

mod sink;
mod source;

pub use sink::{ArraySink, BufferedSink, Sink, SinkFault, WriteSink, put_all};
pub use source::{ReadSource, SliceSource, Source, SourceFault};
