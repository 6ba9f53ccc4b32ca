//! The double that a text means.

ghost use Rattle.std.specs.Prelude.{◌≡◌};
ghost use Rattle.bd_wide_read.specs.DoubleText.{double_bits, number_bits};

use crate::fault::TextFault;
use crate::json_number::is_number;

/// The bits of an infinite double.
const INFINITE: u64 = 0x7FF0_0000_0000_0000;

/// The bits of -0.0: only the sign is set.
const SIGN: u64 = 0x8000_0000_0000_0000;

/// The bits of the double that the text of a `$numberDouble` means.
pub fn read_double(text: &[u8]) -> Result<u64, TextFault>
    ensures { result ≡ double_bits text.now }
{
    if text == b"NaN".as_slice() {
        return Ok(0x7FF8_0000_0000_0000);
    }
    if text == b"Infinity".as_slice() {
        return Ok(INFINITE);
    }
    if text == b"-Infinity".as_slice() {
        return Ok(SIGN + INFINITE);
    }
    read_number(text)
}

/// The bits of the double that is nearest to a number of RFC 8259.
pub fn read_number(text: &[u8]) -> Result<u64, TextFault>
    ensures { result ≡ number_bits text.now }
{
    if !is_number(text) {
        return Err(TextFault::BadText);
    }
    let Ok(double) = fast_float::parse::<f64, &[u8]>(text) else {
        return Err(TextFault::BadText);
    };
    if !double.is_finite() {
        return Err(TextFault::OutOfRange);
    }
    Ok(double.to_bits())
}
