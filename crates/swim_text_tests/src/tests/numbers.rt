use std::process::Abort;
use swim_text::read_number;

// A text is that number, or none.
fn assert_number<R: Abort>(rt: &R, text: &str, number: Option<u64>) {
    assert!(rt;
        read_number(text.as_bytes(), u64::MAX) == number,
        "at {text}"
    );
}

#[test]
fn largest_number(rt: HostRuntime) {
    for (text, number) in [
        ("0", Some(0)),
        ("18446744073709551615", Some(u64::MAX)),
        ("18446744073709551616", None),
    ] {
        assert_number(&rt, text, number);
    }
}
