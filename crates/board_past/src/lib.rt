//! The colourings that a game of Go has been through, which positional superko forbids to repeat (Tromp-Taylor).
//!
//! A `Past` holds them. It plays stones on the newest one, sets up stones on it, and takes the newest one back. A stone that would repeat a
//! colouring made since the last setup of stones isn't played.
//!
//! A run judges over the past `PrintPast`. `ListPast` is the plainest one, and `Past::play` is the plain way to play a stone, which
//! `ListPast` goes. Only `PrintPast` uses the crates `key_trie` and `sha2`, and the shortcuts of `board_stones` for what a stone clears.
//!
//! | Module | What it has |
//! |---|---|
//! | `past` | what a past does; below it `past/print_past`, the past of a run, and `past/list_past`, the plainest one |
//! | `fault` | refused memory |
//!
//! | Rule (docs/RULES.md) | Function, and its module |
//! |---|---|
//! | positional superko (suicide of one stone is a case of it) | in a run `PrintPast::play_asked`, if a stone may repeat a colouring (`may_repeat`, or suicide), and `play_on_copy` after a setup that leaves a stone without a liberty (`past/print_past`); the plain way is `Past::play` (`past`) |
//! | the colourings that it looks at: those since the last setup of stones | `ListPast::holds`, `stretch_has` (`past/list_past`); what a run uses: `Colourings::newest_steps_show_new` and `Colourings::look_back` (`past/print_past/colourings`), which go over the newest ones, and if these don't tell, `Table::gap`, which finds that no print is the same, or else a colouring of that print, which `Colourings::has_near` compares, and then `Table::gap_by_key` (`past/print_past/table`). Each that finds the colouring looks from `Colourings::stretch_start` on |
//! | the list of colourings begins anew with a setup | `Past::set_up` (`past`), and in a run `PrintPast::set_up` (`past/print_past`) |
//!
//! A past takes memory in `new`, `push`, `restart`, `play` and `set_up`. Besides these calls only `reset` may take memory, and only if the
//! past can't begin anew in place. Worked examples are in the crate `go_board_tests`.
#![tactic(auto)]

mod fault;
mod past;

pub use fault::MemoryFault;
pub use past::{ListPast, Past, PrintPast};
