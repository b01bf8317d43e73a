//! Calls of the libraries whose memory is refused, or whose sources and sinks fail.
//!
//! The program is run with its Nth request for memory refused, for N = 1, 2, .. (`tests/failing_calls.sh`). Each
//! call then returns the result that it has with ample memory, or reports that memory was refused. In the second
//! case the value whose method was called is unchanged, and a second call returns that result. A run to which memory was
//! refused leaves whole records in its sink. Runs whose source or sink fails (`streams`) aren't made again. Texts, and
//! what the runs read and write, lie in arrays, so only the calls ask for memory. Some calls need more room than is taken at
//! first. The program prints which of them was refused memory (`seen`).
//!
//! Status 0: every call returned its result at once. Status 4: memory was refused to some call, and all was as expected. Status
//! 1: something was wrong, and standard error says what.
//!
//! - `seen` counts the calls, and keeps what was wrong.
//! - `tree` has the calls of `sgf_tree`, `past` those of `board_past`, `referee` those of `go_board`, `lines` and `runs` those of `sgf_lines`.
//! - `rooms` reads texts with more nodes than there is room for at first, `long_games` plays games with more turns and setups.
//! - `long_texts` has texts longer than the buffers that they are read into, and counts how often their sources are asked.
//! - `page` is a sink over an array, and counts its flushes.
//! - `streams` has runs whose source gives little at a time and then fails, or whose sink takes little at a time and then fails.
#![tactic(auto)]

mod lines;
mod long_games;
mod long_texts;
mod page;
mod past;
mod referee;
mod rooms;
mod runs;
mod seen;
mod streams;
mod tree;

use crate::seen::Seen;
use go_board::{ListPast, PrintPast};
use std::alloc::Global;
use std::process::ExitCode;

fn main(rt: HostRuntime) -> ExitCode {
    let mut seen = Seen::new();
    all_calls(rt.alloc(), &mut seen);
    match seen.first_wrong() {
        None => {
            let _ = println!(rt; "{seen}");
            ExitCode::from(seen.status())
        }
        Some(what) => {
            let _ = eprintln!(rt; "wrong: {what}");
            ExitCode::from(1)
        }
    }
}

/// Makes all calls, with both kinds of past.
fn all_calls(alloc: Global, seen: &mut Seen) {
    tree::calls(alloc, seen);
    rooms::calls(alloc, seen);
    past::calls::<ListPast>(alloc, seen);
    past::calls::<PrintPast>(alloc, seen);
    referee::calls::<ListPast>(alloc, seen);
    referee::calls::<PrintPast>(alloc, seen);
    long_games::calls::<ListPast>(alloc, "turns of a list", "setups of a list", seen);
    long_games::calls::<PrintPast>(alloc, "turns of prints", "setups of prints", seen);
    lines::calls(alloc, seen);
    runs::calls(alloc, seen);
    streams::calls(alloc, seen);
    long_texts::calls(alloc, seen);
}
