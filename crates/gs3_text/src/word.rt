//! Words and numbers in a text.

ghost use Rattle.std.specs.Prelude.{◌≡◌, ◌≤◌, ◌<◌, [], ◌∷◌, ◌^◌, suc, MatchOption, IfOk, length, option_map};
ghost use Rattle.std.specs.List.{prefix_len};
ghost use Rattle.gs3_text.specs.Reading.{Gives, strip, is_digit, value_after, number_of, number_at};

use crate::fault::Fault;

/// The first byte and those behind it.
pub(crate) fn front(bytes: &[u8]) -> Option<(u8, &[u8])>
    ensures { MatchOption result (bytes.now ≡ []) (λ x. bytes.now ≡ x.0 ∷ x.1.now) }
{
    match bytes {
        [] => None,
        [first, rest @ ..] => Some((*first, rest)),
    }
}

/// The bytes behind the word.
#[tactic(auto, unfolding(crate::specs::Reading::strip))]
pub(crate) fn strip<'a>(bytes: &'a [u8], word: &[u8]) -> Option<&'a [u8]>
    ensures { option_map (λ rest. rest.now) result ≡ strip word.now bytes.now }
{
    bytes.strip_prefix(word)
}

/// How many digits stand at the front.
fn digits(bytes: &[u8]) -> usize
    ensures count { result ≡ prefix_len is_digit bytes.now }
    ensures within { result ≤ length bytes.now }
{
    for (i, b) in bytes.iter().enumerate() {
        if !(b'0' <= *b && *b <= b'9') {
            return i;
        }
    }
    bytes.len()
}

/// The number that the digits write, where it is below 2 ^ 64.

fn value(digits: &[u8]) -> Option<u64>
    ensures { MatchOption result (2 ^ 64 ≤ value_after 0 digits.now) (λ n. n ≡ value_after 0 digits.now) }
{
    let mut n: u64 = 0;
    for d in digits {
        let Some(tens) = n.checked_mul(10) else {
            return None;
        };
        let Some(more) = tens.checked_add(u64::from(d.saturating_sub(b'0'))) else {
            return None;
        };
        n = more;
    }
    Some(n)
}

#[tactic(auto, unfolding(crate::specs::Reading::number_of))]
fn number_of(digits: &[u8], most: u64) -> Result<u64, Fault>
    ensures read { Gives (λ n. n) result (number_of (suc most) digits.now) }
    ensures within { IfOk result (λ n. n ≤ most) }
{
    match digits {
        [] | [b'0', _, ..] => Err(Fault::Malformed),
        _ => match value(digits) {
            Some(n) if n <= most => Ok(n),
            _ => Err(Fault::Malformed),
        },
    }
}

/// A number at the front, of digits without a leading zero.
#[tactic(auto, unfolding(crate::specs::Reading::number_at))]
pub(crate) fn number_at(bytes: &[u8], most: u64) -> Result<(u64, &[u8]), Fault>
    ensures read { Gives (λ x. (x.0, x.1.now)) result (number_at (suc most) bytes.now) }
    ensures within { IfOk result (λ x. x.0 ≤ most) }
{
    let (front, rest) = bytes.split_at(digits(bytes));
    Ok((number_of(front, most)?, rest))
}
