//! The parts of a text that are skipped.

ghost use Rattle.std.specs.Prelude.{◌≡◌, ◌==◌, ◌||◌, ◌≤◌, drop, length};
ghost use Rattle.std.specs.{Char.is_ascii_digit, List.list_any};
ghost use Rattle.bd_wide_substitute.specs.Substitutes.{after, after_string, is_blank as is_blank_of, is_no_quote, is_of_number as is_of_number_of};

/// What follows the white space at the start.
pub(crate) fn skip_blanks(bytes: &[u8]) -> &[u8]
    ensures { result.now ≡ after is_blank_of bytes.now }
{
    let mut rest = bytes;
    while let [c, more @ ..] = rest {
        if !is_blank(*c) {
            return rest;
        }
        rest = more;
    }
    rest
}

/// Whether a byte is white space of JSON.
fn is_blank(c: u8) -> bool
    ensures { result ≡ is_blank_of c }
{
    c == b' ' || c == b'\t' || c == b'\n' || c == b'\r'
}

/// What follows the bytes of numbers at the start.
pub(crate) fn skip_run(bytes: &[u8]) -> &[u8]
    ensures rest { result.now ≡ after is_of_number_of bytes.now }
    ensures inside { length result.now ≤ length bytes.now }
{
    let mut rest = bytes;
    while let [c, more @ ..] = rest {
        if !is_of_number(*c) {
            return rest;
        }
        rest = more;
    }
    rest
}

/// Whether a byte can be part of a number.
pub(crate) fn is_of_number(c: u8) -> bool
    ensures { result ≡ is_of_number_of c }
{
    c.is_ascii_digit() || (c == b'+' || c == b'-' || c == b'.' || c == b'E' || c == b'e')
}

pub(crate) fn has_fraction_or_exponent(bytes: &[u8]) -> bool
    ensures { result ≡ list_any (λ c. c == 46 || c == 69 || c == 101) bytes.now }
{
    for c in bytes {
        if *c == b'.' || *c == b'E' || *c == b'e' {
            return true;
        }
    }
    false
}

/// The bytes from the first quote on.
pub(crate) fn skip_to_quote(bytes: &[u8]) -> &[u8]
    ensures rest { result.now ≡ after is_no_quote bytes.now }
    ensures inside { length result.now ≤ length bytes.now }
{
    let mut rest = bytes;
    while let [c, more @ ..] = rest {
        if *c == b'"' {
            return rest;
        }
        rest = more;
    }
    rest
}

/// What follows a string, after its first quote.
pub(crate) fn skip_string(bytes: &[u8]) -> &[u8]
    ensures rest { result.now ≡ after_string bytes.now }
    ensures inside { length result.now ≤ length bytes.now }
{
    let mut rest = bytes;
    while let [c, more @ ..] = rest {
        if *c == b'"' {
            return more;
        }
        rest = if *c == b'\\' {
            skip_escaped(more)
        } else {
            more
        };
    }
    rest
}

/// What follows a byte, if there is one.
fn skip_escaped(bytes: &[u8]) -> &[u8]
    ensures { result.now ≡ drop 1 bytes.now }
{
    match bytes {
        [_, more @ ..] => more,
        [] => bytes,
    }
}
