//! Numbers of RFC 8259.

ghost use Rattle.std.specs.Prelude.{◌≡◌, ◌≤◌, length, option_map};
ghost use Rattle.bd_wide_read.specs.JsonNumber.{after_digits as after_digits_of, after_exponent as after_exponent_of, after_fraction as after_fraction_of, after_int as after_int_of, after_number as after_number_of, is_number as is_number_of, skip_digits as skip_digits_of, without_minus as without_minus_of, without_sign as without_sign_of};

/// Whether bytes are a number.
pub fn is_number(bytes: &[u8]) -> bool
    ensures { result ≡ is_number_of bytes.now }
{
    match after_number(bytes) {
        Some([]) => true,
        _ => false,
    }
}

/// What follows a number.
pub fn after_number(bytes: &[u8]) -> Option<&[u8]>
    ensures { option_map (λ s. s.now) result ≡ after_number_of bytes.now }
{
    after_exponent(after_fraction(after_int(without_minus(bytes))?)?)
}

/// What follows a zero, or digits of which the first is none.
fn after_int(bytes: &[u8]) -> Option<&[u8]>
    ensures { option_map (λ s. s.now) result ≡ after_int_of bytes.now }
{
    match bytes {
        [b'0', rest @ ..] => Some(rest),
        _ => after_digits(bytes),
    }
}

/// What follows a fraction, if it is there.
fn after_fraction(bytes: &[u8]) -> Option<&[u8]>
    ensures { option_map (λ s. s.now) result ≡ after_fraction_of bytes.now }
{
    match bytes {
        [b'.', rest @ ..] => after_digits(rest),
        _ => Some(bytes),
    }
}

/// What follows an exponent, if it is there.
fn after_exponent(bytes: &[u8]) -> Option<&[u8]>
    ensures { option_map (λ s. s.now) result ≡ after_exponent_of bytes.now }
{
    match bytes {
        [b'e' | b'E', rest @ ..] => after_digits(without_sign(rest)),
        _ => Some(bytes),
    }
}

/// What follows at least one digit.
pub(crate) fn after_digits(bytes: &[u8]) -> Option<&[u8]>
    ensures { option_map (λ s. s.now) result ≡ after_digits_of bytes.now }
{
    match bytes {
        [c, rest @ ..] if c.is_ascii_digit() => Some(skip_digits(rest)),
        _ => None,
    }
}

/// What follows the digits at the start.
fn skip_digits(bytes: &[u8]) -> &[u8]
    ensures rest { result.now ≡ skip_digits_of bytes.now }
{
    let mut rest = bytes;
    while let [c, more @ ..] = rest {
        if !c.is_ascii_digit() {
            return rest;
        }
        rest = more;
    }
    rest
}

fn without_minus(bytes: &[u8]) -> &[u8]
    ensures { result.now ≡ without_minus_of bytes.now }
{
    match bytes {
        [b'-', rest @ ..] => rest,
        _ => bytes,
    }
}

fn without_sign(bytes: &[u8]) -> &[u8]
    ensures { result.now ≡ without_sign_of bytes.now }
{
    match bytes {
        [b'-' | b'+', rest @ ..] => rest,
        _ => bytes,
    }
}
