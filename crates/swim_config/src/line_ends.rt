//! How a line ends, which says whether another byte may be shown behind it.

ghost use Rattle.std.specs.Prelude.{◌≡◌, ◌<◌, ◌≤◌, ◌^◌, length};
ghost use Rattle.swim_config.specs.Hiding.{begins_value, empty_end, end_behind, ends_at, may_be_shown};

/// From how many hexadecimal digits in a row on they aren't shown. A key and a seed have 64 of them.
const HIDDEN_DIGITS: usize = 12;

/// How many digits the largest integer of a document has.
const NUMBER_DIGITS: usize = 19;

/// How a line ends.
#[derive(Clone, Copy)]
pub struct LineEnd {
    /// With how many hexadecimal digits in a row.
    pub digits: usize,
    /// Whether they are the value of a number, or may become one: decimal digits behind a `=`.
    pub is_value: bool,
}

impl LineEnd {
    /// How that line ends.
    #[tactic(auto, using(crate::proofs::HiddenDigits::ends_at_more))]
    pub fn of(line: &[u8]) -> LineEnd
        requires { length line.now < 2 ^ 32 }
        ensures end { result ≡ ends_at empty_end line.now }
        ensures digits { result.digits ≤ length line.now }
    {
        let mut end = LineEnd {
            digits: 0,
            is_value: false,
        };
        for byte in line {
            end = end.behind(*byte);
        }
        end
    }

    /// How it ends with a byte more.
    pub fn behind(self, byte: u8) -> LineEnd
        requires { self.digits < 2 ^ 32 }
        ensures { result ≡ end_behind self byte }
    {
        if byte.is_ascii_hexdigit() {
            LineEnd {
                digits: self.digits + 1,
                is_value: self.is_value && byte.is_ascii_digit(),
            }
        } else {
            LineEnd {
                digits: 0,
                is_value: self.begins_value(byte),
            }
        }
    }

    /// Whether the value of a number may begin behind that byte.
    fn begins_value(self, byte: u8) -> bool
        ensures { result ≡ begins_value self byte }
    {
        byte == b'='
            || self.is_value && self.digits == 0 && (byte == b' ' || byte == b'+' || byte == b'-')
    }

    /// Whether a line that ends so may be shown: its last digits are too few to tell a key, or the value of a number.
    pub fn may_be_shown(self) -> bool
        ensures { result ≡ may_be_shown self }
    {
        self.digits < HIDDEN_DIGITS || self.is_value && self.digits <= NUMBER_DIGITS
    }
}
