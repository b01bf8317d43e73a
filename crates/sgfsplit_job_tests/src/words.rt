//! The jobs that words ask for.

use sgf_lines::{Form, Options};
use sgfsplit_job::{Job, job};
use std::alloc::Global;
use std::process::Abort;

/// The words as strings.
fn strings(rt: &impl Abort, alloc: Global, words: &[&str]) -> Vec<String> {
    let mut strings = Vec::new(alloc);
    for word in words {
        let string = String::from_str(alloc, word).expect(rt, "room for a word");
        assert!(rt; strings.push(string).is_ok());
    }
    strings
}

/// Whether the words ask to split the file ` a.sgf ` with these options.
fn ask_so(rt: &impl Abort, alloc: Global, words: &[&str], want: Options) -> bool {
    let words = strings(rt, alloc, words);
    match job(alloc, words.as_slice()) {
        Ok(
            Job::Split {
                options,
                file: Some(name),
            },
        ) => options == want && name.as_str() == " a.sgf ",
        _ => false,
    }
}

#[test]
fn options_in_any_order(rt: HostRuntime) {
    const WORDS: [[&str; 7]; 3] = [
        [
            "sgfsplit", "split", "--after", "+95", "--form", "gtp", " a.sgf ",
        ],
        [
            "sgfsplit", "split", " a.sgf ", "--form", "gtp", "--after", "95",
        ],
        [
            "x",
            "split",
            "--form=gtp",
            "--after=0095",
            "--limit",
            "7",
            " a.sgf ",
        ],
    ];
    for (number, words) in WORDS.iter().enumerate() {
        let want = Options {
            form: Form::Gtp,
            after: Some(95),
            limit: if number == 2 { Some(7) } else { None },
        };
        let is_so = ask_so(&rt, rt.alloc(), words, want);
        assert!(rt; is_so, "the words of row {number}");
    }
}
