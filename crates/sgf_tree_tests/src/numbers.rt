//! Values that are numbers, and values that aren't.

use sgf_tree::number;

#[test]
fn reads_numbers(rt: HostRuntime) {
    const NUMBERS: [(&str, Option<i64>); 10] = [
        ("+7", Some(7)),
        ("-0", Some(0)),
        ("-12", Some(-12)),
        ("007", Some(7)),
        ("999999999999999999", Some(999_999_999_999_999_999)),
        ("1000000000000000000", None),
        ("+", None),
        ("", None),
        ("19:19", None),
        ("1 ", None),
    ];
    for &(raw, want) in &NUMBERS {
        assert!(rt; number(raw.as_bytes()) == want, "of {raw:?}");
    }
}
