//! Numbers as they are written.

ghost use Rattle.std.specs.Prelude.{◌≡◌, ◌≤◌, ◌==◌, ℕ, IfSome, IsNone};
ghost use Rattle.std.specs.List.{slice_index};
ghost use Rattle.goeland_words.specs.Table.{text_in};
ghost use Rattle.goeland_words.specs.Numbers.{leads_with_zero, IsNumberIn, IsNumberOr};

/// Whether a zero stands before something else.
fn leads_with_zero(bytes: &[u8]) -> bool
    ensures { result ≡ leads_with_zero bytes.now }
{
    match bytes {
        [first, _, ..] => *first == b'0',
        _ => false,
    }
}

/// Whether the text begins with `+`.
fn begins_with_plus(bytes: &[u8]) -> bool
    ensures { result ≡ (slice_index bytes.now 0 == 43) }
{
    match bytes {
        [first, ..] => *first == b'+',
        _ => false,
    }
}

/// The number from `least` to `most` that the text is.
pub(crate) fn number_in(text: &str, least: u64, most: u64) -> Option<u64>
    ensures some { IfSome result (IsNumberIn least most text.now) }
    ensures none { IsNone result → (n : ℕ) → IsNumberIn least most text.now n → ⊥ }
{
    if leads_with_zero(text.as_bytes()) || begins_with_plus(text.as_bytes()) {
        return None;
    }
    match text.parse::<u64>() {
        Ok(number) => {
            if number < least || most < number {
                return None;
            }
            Some(number)
        }
        Err(_) => None,
    }
}

/// The same of a text that may be left out.
pub(crate) fn number_or(text: Option<&str>, default: u64, least: u64, most: u64) -> Option<u64>
    requires { default ≤ most }
    ensures most { IfSome result (λ n. n ≤ most) }
    ensures some { IfSome result (IsNumberOr default least most (text_in text.entry)) }
    ensures none { IsNone result → (n : ℕ) → IsNumberOr default least most (text_in text.entry) n → ⊥ }
{
    match text {
        Some(text) => number_in(text, least, most),
        None => Some(default),
    }
}
