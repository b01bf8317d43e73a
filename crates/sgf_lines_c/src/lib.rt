//! The lines of play of an SGF collection, for programs in C and in languages that can call C.
//!
//! A thin static library over `sgf_lines`. `include/sgf_lines.h` declares the exported calls, and describes them for C programs.
//! The library keeps nothing between two calls, so any number of threads may call it at once. It opens nothing, and writes only to
//! what the caller passes for writing. Memory comes from the C library's `malloc`, and all of it is freed before a call returns.
//!
//! | Module | What it has |
//! |---|---|
//! | `split`, `count`, `judge` | the three calls |
//! | `asked` | what a caller asks for |
//! | `answer` | what the three calls report |
//! | `status`, `refusal` | how a call ended; what a fault says to the caller |
#![tactic(auto)]

mod answer;
mod asked;
mod count;
mod judge;
mod refusal;
mod split;
mod status;

pub use answer::{Answer, CountAnswer, JudgeAnswer};
pub use asked::Asked;
pub use count::sgf_lines_count;
pub use judge::sgf_lines_judge;
pub use split::sgf_lines_split;
pub use status::Status;
