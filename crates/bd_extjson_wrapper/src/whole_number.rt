//! Whole numbers, as texts write them.
ghost use Rattle.std.specs.Prelude.{◌≡◌};
ghost use Rattle.std.specs.Str.{all_ascii_digits};
ghost use Rattle.bd_extjson_wrapper.specs.WholeNumber.{are_digits, begins_digits, unsigned, whole_64, whole_32};

/// The text after a minus sign, if any.
fn without_sign(text: &[u8]) -> &[u8]
    ensures { result.now ≡ unsigned text.now }
{
    match text {
        [b'-', digits @ ..] => digits,
        _ => text,
    }
}

/// Whether the text begins with a digit, and not with a zero before others.
fn begins_as_digits(digits: &[u8]) -> bool
    ensures { result ≡ begins_digits digits.now }
{
    match digits {
        [] => false,
        [b'0', rest @ ..] => rest.is_empty(),
        [first, ..] => first.is_ascii_digit(),
    }
}

/// The 64-bit number that a text of the form `-?(0|[1-9][0-9]*)` writes.
pub fn whole(text: &str) -> Option<i64>
    ensures { result ≡ whole_64 text.now }
{
    // `parse` accepts a plus sign and leading zeros too, and checks the other digits itself.
    if !begins_as_digits(without_sign(text.as_bytes())) {
        return None;
    }
    text.parse::<i64>().ok()
}

/// The same for a 32-bit number.
pub fn whole_of_32(text: &str) -> Option<i32>
    ensures { result ≡ whole_32 text.now }
{
    i32::try_from(whole(text)?).ok()
}

fn are_all_digits(bytes: &[u8]) -> bool
    ensures { result ≡ all_ascii_digits bytes.now }
{
    for c in bytes {
        if !c.is_ascii_digit() {
            return false;
        }
    }
    true
}

/// Whether a text has that form, for a number of any size.
pub fn is_whole_number(text: &[u8]) -> bool
    ensures { result ≡ are_digits (unsigned text.now) }
{
    let digits = without_sign(text);
    begins_as_digits(digits) && are_all_digits(digits)
}
