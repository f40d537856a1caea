use std::process::Abort;
use swim_wire::Id;

// A text is that id, or none.
fn assert_id<R: Abort>(rt: &R, text: &str, id: Option<Id>) {
    assert!(rt; Id::read(text.as_bytes()) == id, "at {text}");
}

#[test]
fn ids(rt: HostRuntime) {
    for (text, number) in [("1", 1), ("4294967295", 4294967295)] {
        assert_id(&rt, text, Id::new(number));
    }
    for text in ["", "0", "01", "+5", "4294967296"] {
        assert_id(&rt, text, None);
    }
}
