//! The doubles whose text has no power of ten: `ryu` writes it in place, and with the layout of bsondump.

ghost use Rattle.std.specs.Prelude.{◌≡◌, ◌≤◌, ◌+◌, length, take, IsTrue, IfSome};
ghost use Rattle.bd_wide_text.specs.Double.{IsDoubleText};
ghost use Rattle.bd_wide_text.specs.inside.Limited.{HasNone, IsShort};
ghost use Rattle.bd_wide_text.specs.inside.LaidOutAnew.{IsMiddling};
ghost use Rattle.bd_wide_text.specs.Layout.{Adds};

use crate::double::{SIGN, has_sign};
use ryu::raw;

/// The bits of 0.0001.
const LEAST: u64 = 0x3F1A_36E2_EB1C_432D;

/// The bits of 1,000,000.
const MOST: u64 = 0x412E_8480_0000_0000;

/// Whether the double with these bits is above 0.0001 and below 1,000,000, or is so without its sign.
#[inline(always)]
pub(crate) fn is_middling(bits: u64) -> bool
    ensures { IsTrue result → IsMiddling bits }
{
    let size = bits % SIGN;
    LEAST < size && size < MOST
}

/// Writes the text of such a double after the text in a buffer, and returns the new end;
/// None if it may have more than 17 digits.
#[inline(always)]
pub(crate) fn put_plain(bits: u64, buffer: &mut [u8], end: usize) -> Option<usize>
    requires size { IsMiddling bits }
    requires space { end + 32 ≤ length buffer.old }
    ensures appended { IfSome result
        (λ after. Adds (IsDoubleText bits) (take end buffer.old) (take after buffer.new)) }
    ensures end { IfSome result (λ after. after ≤ end + 25) }
    ensures before { take end buffer.new ≡ take end buffer.old }
{
    let Some(count) = put_first(bits, &mut buffer[end..end + raw::LEN]) else {
        return None;
    };
    Some(end + count)
}

/// Writes the text of such a double into the first bytes of a buffer, and returns its length;
/// None if it may have more than 17 digits.
#[inline(always)]
fn put_first(bits: u64, buffer: &mut [u8]) -> Option<usize>
    requires size { IsMiddling bits }
    requires space { length buffer.old ≡ 32 }
    ensures text { IfSome result (λ count. IsDoubleText bits (take count buffer.new)) }
    ensures short { IfSome result (λ count. count ≤ 25) }
{
    let Some(text) = buffer.as_mut_array() else {
        unreachable!()
    };
    let count = raw::format(f64::from_bits(bits), text);
    if !is_short(&buffer[..count]) {
        return None;
    }
    Some(count)
}

/// Whether a text has at most 17 digits by its length alone.
#[inline(always)]
fn is_short(text: &[u8]) -> bool
    ensures { IsTrue result → IsShort text.now }
{
    let sign = has_sign(text) as usize;
    if text.len() <= 18 + sign {
        return true;
    }
    text.len() <= 17 + none_before(text)
}

/// How many bytes come before the first digit other than 0.
fn none_before(text: &[u8]) -> usize
    ensures none { HasNone text.now result }
    ensures within { result ≤ length text.now }
{
    for (i, b) in text.iter().enumerate() {
        if *b > b'0' {
            return i;
        }
    }
    text.len()
}
