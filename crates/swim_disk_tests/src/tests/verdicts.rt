//! Which lines of a journal file tell that a member was judged.

use swim_disk::{VerdictSearch, tells_verdict};

#[test]
fn a_line_tells_a_verdict(rt: HostRuntime) {
    assert!(rt; tells_verdict(b"= 12 started judged 3 probe 2 4"));
    assert!(rt; tells_verdict(b"= 18446744073709551615 started judged 4"));
    assert!(rt; tells_verdict(b"= 0 started judged 3 probe -"));
    let others: [&[u8]; 9] = [
        b"= 12 started judged - probe 2 4",
        b"= 12 started judged - probe -",
        b"= 12 joined 1",
        b"= started judged 3",
        b"=12 started judged 3",
        b"# 12 started judged 3 probe 2 4",
        b"tick",
        b"= 12 ",
        b"",
    ];
    for line in others {
        assert!(rt; !tells_verdict(line));
    }
}

// However the text is cut into pieces; of a line that isn't at its end nothing is known.
#[test]
fn a_text_is_looked_through(rt: HostRuntime) {
    let text =
        b"tick\n= 1 started judged - probe 2 1\n# 1764072000\ntick\n= 2 started judged 2 probe 3 2\ntick\n";
    let end = text.len() - b"\ntick\n".len();
    for size in 1..=text.len() {
        let mut search = VerdictSearch::new();
        let mut count = 0usize;
        for piece in text.chunks(size) {
            search.read(piece);
            count = count.saturating_add(piece.len());
            assert!(rt; search.is_found() == (end < count));
        }
    }
}
