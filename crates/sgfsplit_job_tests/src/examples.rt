//! The functions of the example `lines_in_memory`.

use lines_in_memory::{first_illegal, first_verdict, longest_line, records};
use sgf_lines::{Form, Options, RunFault, Verdict, read, read_outline};

/// A game of two lines.
const TWO: &[u8] = b"(;SZ[3](;B[aa])(;B[bb];W[aa]))";

#[test]
fn two_lines(rt: HostRuntime) {
    let options = Options::all(Form::Sgf);
    let written = records(rt.alloc(), TWO, &options).expect(&rt, "the records");
    let wanted = b"(;SZ[3];B[aa])\n(;SZ[3];B[bb];W[aa])\n";
    assert!(rt; written.as_slice() == wanted.as_slice());
}

#[test]
fn longest(rt: HostRuntime) {
    let outline = read_outline(rt.alloc(), TWO).expect(&rt, "an outline");
    assert!(rt; longest_line(rt.alloc(), &outline) == Ok(3));
}

#[test]
fn first(rt: HostRuntime) {
    let collection = read(rt.alloc(), TWO).expect(&rt, "a collection");
    let black_alone = Verdict::Score {
        black: 9,
        white: 0,
        over: false,
    };
    assert!(rt; first_verdict(rt.alloc(), &collection) == Ok(Some(black_alone)));
}

#[test]
fn illegal(rt: HostRuntime) {
    // The second line plays on a stone.
    let text = b"(;SZ[3];B[aa](;W[bb])(;W[aa])(;B[aa]))";
    let outline = read_outline(rt.alloc(), text).expect(&rt, "an outline");
    assert!(rt; first_illegal(rt.alloc(), &outline) == Ok(Some(22)));
}

#[test]
fn fault_texts(rt: HostRuntime) {
    for &(len, text) in &[(7, "byte 7: input ends too early"), (8, "byte 7: not SGF")] {
        let fault = RunFault::NotSgf { at: 7, len };
        let told = format!(in rt.alloc(); "{fault}").expect(&rt, "room for a message");
        assert!(rt; told.as_str() == text, "{text}");
    }
}
