//! No line below a fault shows a key or a seed, whatever it is called; the value of a number is shown.

use super::alone::{assert_fault, behind, joined, told_of};
use super::assert_same_at;
use std::test::Fail;

/// What is told of an id of another kind, and of one that is out of range.
const KIND: &str =
    "configuration 5 id\n  expected: an integer from 1 to 4294967295 (this member)\n";

const RANGE: &str =
    "configuration 6 id\n  expected: an integer from 1 to 4294967295 (this member)\n";

#[test]
fn a_key_is_hidden_whatever_it_is_called(rt: HostRuntime) -> Result<(), Fail> {
    let key = "00112233445566778899aabbccddeeff00112233445566778899aabbccddeeff";
    for (name, known) in [
        ("secret", "seed"),
        ("psk", "k"),
        ("password", "period"),
        ("token", "listen"),
        ("ksy", "k"),
    ] {
        let line = joined(rt.alloc(), &[name, " = \"", key, "\"\n"])?;
        let document = behind(rt.alloc(), line.as_str())?;
        let wanted = joined(
            rt.alloc(),
            &[
                "configuration 3\n  found: ",
                name,
                "; the nearest known key: ",
                known,
                "\n  line 1: ",
                name,
                " = \"..\"\n",
            ],
        )?;
        assert_fault(&rt, rt.alloc(), document.as_str(), wanted.as_str());
    }
    Ok(())
}

#[test]
fn twelve_digits_in_a_row_are_hidden(rt: HostRuntime) -> Result<(), Fail> {
    for (value, shown) in [
        ("\"12345678901\"", "\"12345678901\""),
        ("\"123456789012\"", "\"..\""),
        ("\"0aAbBcCdDeE9fF\"", "\"..\""),
        ("\"x0123456789abcz-0\"", "\"x..z-0\""),
        ("\"12345678901 12345678901\"", "\"12345678901 12345678901\""),
        ("\"=12345678901a\"", "\"=..\""),
        ("true # 123456789012", "true # .."),
    ] {
        let document = joined(rt.alloc(), &["id = ", value, "\n"])?;
        let wanted = joined(rt.alloc(), &[KIND, "  line 1: id = ", shown, "\n"])?;
        assert_fault(&rt, rt.alloc(), document.as_str(), wanted.as_str());
    }
    Ok(())
}

#[test]
fn the_value_of_a_number_is_shown(rt: HostRuntime) -> Result<(), Fail> {
    for (value, shown) in [
        ("123456789012", "123456789012"),
        ("-9223372036854775808", "-9223372036854775808"),
        ("  +1234567890123 # 1234567890123", "  +1234567890123 # .."),
        ("0x123456789abc", "0x.."),
        ("1_000_000_000_000", "1_000_000_000_000"),
    ] {
        let document = joined(rt.alloc(), &["id = ", value, "\n"])?;
        let wanted = joined(rt.alloc(), &[RANGE, "  line 1: id = ", shown, "\n"])?;
        assert_fault(&rt, rt.alloc(), document.as_str(), wanted.as_str());
    }
    Ok(())
}

#[test]
fn a_line_that_is_no_statement_shows_no_key(rt: HostRuntime) {
    for (line, shown) in [
        (
            "seed = '00112233445566778899aabbccddeeff' '00112233445566778899aabbccddeeff'\n",
            "\n  line 1: seed = '..' '..'\n",
        ),
        (
            "00112233445566778899 00112233445566778899\n",
            "\n  line 1: ..\n",
        ),
        ("x = 00112233445566778899\n", "\n  line 1: x = ..\n"),
    ] {
        let page = told_of(rt.alloc(), line);
        assert_same_at(&rt, line, &page.text().ends_with(shown.as_bytes()), &true);
    }
}
