//! Runs of bytes: what follows the bytes in front that are of one kind.

ghost use Rattle.std.specs.Prelude.{◌≡◌, ◌≤◌, false, option_map};
ghost use Rattle.fof_lex.specs.Bytes.{is_word_byte, is_digit, is_in_line, is_plain, is_escaped};
ghost use Rattle.fof_lex.specs.Reading.{after, after_close, after_quote, after_digits_or, without_sign, after_point};
ghost use Rattle.fof_lex.specs.Reading.{after_exponent, after_number};

fn is_word_byte(c: u8) -> bool
    ensures { result ≡ is_word_byte c }
{
    matches!(c, b'a'..=b'z' | b'A'..=b'Z' | b'0'..=b'9' | b'_')
}

fn is_digit(c: u8) -> bool
    ensures { result ≡ is_digit c }
{
    matches!(c, b'0'..=b'9')
}

/// What follows the letters, digits and underscores in front.
pub(crate) fn after_word(bytes: &[u8]) -> &[u8]
    ensures { result.now ≡ after is_word_byte bytes.now }
{
    let mut rest = bytes;
    while let [c, more @ ..] = rest {
        if !is_word_byte(*c) {
            return rest;
        }
        rest = more;
    }
    rest
}

/// What follows the digits in front.
pub(crate) fn after_digits(bytes: &[u8]) -> &[u8]
    ensures { result.now ≡ after is_digit bytes.now }
{
    let mut rest = bytes;
    while let [c, more @ ..] = rest {
        if !is_digit(*c) {
            return rest;
        }
        rest = more;
    }
    rest
}

/// The first line feed with what follows it, or nothing where there is none.
pub(crate) fn after_line(bytes: &[u8]) -> &[u8]
    ensures { result.now ≡ after is_in_line bytes.now }
{
    let mut rest = bytes;
    while let [c, more @ ..] = rest {
        if *c == b'\n' {
            return rest;
        }
        rest = more;
    }
    rest
}

/// What follows the first `*/`.
pub(crate) fn after_close(bytes: &[u8]) -> Option<&[u8]>
    ensures { option_map (λ rest. rest.now) result ≡ after_close bytes.now }
{
    let mut rest = bytes;
    while let [c, more @ ..] = rest {
        if *c == b'*' {
            if let [b'/', behind @ ..] = more {
                return Some(behind);
            }
        }
        rest = more;
    }
    None
}

/// Whether the byte stands between quotes only behind a backslash.
fn is_escaped(quote: u8, c: u8) -> bool
    ensures { result ≡ is_escaped quote c }
{
    c == quote || c == b'\\'
}

/// Whether the byte stands for itself between quotes.
fn is_plain(quote: u8, c: u8) -> bool
    ensures { result ≡ is_plain quote c }
{
    matches!(c, 32..=126) && !is_escaped(quote, c)
}

/// What follows the closing quote, where the text begins behind the opening one.
pub(crate) fn after_quote(quote: u8, bytes: &[u8]) -> Option<&[u8]>
    ensures { option_map (λ rest. rest.now) result ≡ after_quote quote false bytes.now }
{
    let mut rest = bytes;
    while let [c, more @ ..] = rest {
        if *c == quote {
            return Some(more);
        }
        if *c == b'\\' {
            let [d, behind @ ..] = more else {
                return None;
            };
            if !is_escaped(quote, *d) {
                return None;
            }
            rest = behind;
        } else {
            if !is_plain(quote, *c) {
                return None;
            }
            rest = more;
        }
    }
    None
}

/// What follows the digits in front of `digits`, or the text where there are none.
fn after_digits_or<'a>(text: &'a [u8], digits: &'a [u8]) -> &'a [u8]
    ensures { result.now ≡ after_digits_or text.now digits.now }
{
    match digits {
        [b'0'..=b'9', ..] => after_digits(digits),
        _ => text,
    }
}

fn without_sign(bytes: &[u8]) -> &[u8]
    ensures { result.now ≡ without_sign bytes.now }
{
    match bytes {
        [b'+' | b'-', rest @ ..] => rest,
        _ => bytes,
    }
}

/// What follows a point with digits, or the text where none stands in front.
fn after_point(bytes: &[u8]) -> &[u8]
    ensures { result.now ≡ after_point bytes.now }
{
    match bytes {
        [b'.', rest @ ..] => after_digits_or(bytes, rest),
        _ => bytes,
    }
}

/// What follows an exponent with digits, or the text where none stands in front.
fn after_exponent(bytes: &[u8]) -> &[u8]
    ensures { result.now ≡ after_exponent bytes.now }
{
    match bytes {
        [b'e' | b'E', rest @ ..] => after_digits_or(bytes, without_sign(rest)),
        _ => bytes,
    }
}

/// What follows a number, where the text begins behind its sign.
#[tactic(auto, unfolding(crate::specs::Reading::after_number))]
pub(crate) fn after_number(bytes: &[u8]) -> &[u8]
    ensures { result.now ≡ after_number bytes.now }
{
    let rest = after_digits(bytes);
    match rest {
        [b'/', digits @ ..] => after_digits_or(rest, digits),
        _ => after_exponent(after_point(rest)),
    }
}
