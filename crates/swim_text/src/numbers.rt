//! Numbers in text.

ghost use Rattle.std.specs.Prelude.{◌≡◌, ℕ, ◌<◌, ◌≤◌, ◌^◌, ◌↔◌, Some, IfSome, IsTrue, decimal};
ghost use Rattle.swim_text.specs.Numbers.{number_of, IsPlain};

/// The number from 0 to `limit` that the text is in decimal, with no sign and no zero in front. `None` for
/// any other text.
pub fn read_number(text: &[u8], limit: u64) -> Option<u64>
    ensures exact { result ≡ number_of limit text.now }

    // What is read is written so,
    ensures found { IfSome result (λ n. (n ≤ limit) × (text.now ≡ decimal n)) }

    // and what is written so is read.
    ensures only { (n : ℕ) → n ≤ limit → text.now ≡ decimal n → result ≡ Some n }
{
    parse(text, limit)
}

fn parse(text: &[u8], limit: u64) -> Option<u64>
    ensures { result ≡ number_of limit text.now }
{
    if !is_plain(text) {
        return None;
    }
    let number = parsed(text)?;
    if number > limit {
        return None;
    }
    Some(number)
}

// Whether the text, where std reads a number in it, is how that number is written: std also takes a `+` and zeros in
// front.
fn is_plain(text: &[u8]) -> bool
    ensures { IsTrue result ↔ IsPlain text.now }
{
    match text.first() {
        Some(b'0') => text.len() == 1,
        Some(first) => *first != b'+',
        None => true,
    }
}

// What std reads, which is more than the canonical texts.
fn parsed(text: &[u8]) -> Option<u64>
    ensures found { IfSome result (λ n. IsPlain text.now → text.now ≡ decimal n) }
    ensures only { (n : ℕ) → n < 2 ^ 64 → text.now ≡ decimal n → result ≡ Some n }
{
    str::from_utf8(text).ok()?.parse().ok()
}
