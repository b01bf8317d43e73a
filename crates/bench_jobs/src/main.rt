//! Runs the jobs that users of `sgfsplit` wait for, on games that it makes up, and prints a digest of all that was written.
//!
//!     bench_jobs JOB SEED SIZE
//!
//! The same words give the same digest. Another SEED gives other games of the same kinds and sizes. The number of games, or the size of
//! their texts, grows with SIZE. `bench/run` takes the times of two builds.
//!
//! - `jobs` has the jobs by their names. Each calls `sgfsplit_job::act` on one text after another.
//! - `asked` does one job on one text. `digest` is where the bytes go.
//! - `texts` makes the texts. `goban` is a small board of its own, so that most moves are legal, and many capture.
//! - `chance` has numbers that look random.
#![tactic(auto)]

mod asked;
mod chance;
mod digest;
mod goban;
mod jobs;
mod texts;

use std::{env, io};

fn main(rt: HostRuntime) -> io::Result<()> {
    let words: Vec<String> = env::args(&rt)?.collect(rt.alloc())?;
    let name = match words.get(1) {
        Some(word) => word.as_str(),
        None => "",
    };
    let digest = jobs::digest_of(rt.alloc(), name, number(&words, 2), number(&words, 3))?;
    println!(rt; "{name} {digest:016x}")
}

/// The number that a word of the command line is; 0 if it is none.
fn number(words: &[String], index: usize) -> u64 {
    match words.get(index) {
        Some(word) => word.as_str().parse::<u64>().unwrap_or(0),
        None => 0,
    }
}
