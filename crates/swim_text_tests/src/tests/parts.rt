use swim_text::cut;

#[test]
fn at_the_first_byte(rt: HostRuntime) {
    match cut(b"a.b.c", b'.') {
        Some((before, after)) => {
            assert!(rt; before == b"a".as_slice());
            assert!(rt; after == b"b.c".as_slice());
        }
        None => panic!(rt; "there is such a byte"),
    }
    assert!(rt; cut(b"abc", b'.').is_none());
}
