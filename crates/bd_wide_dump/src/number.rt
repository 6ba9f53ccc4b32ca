//! Doubles and decimal128, each as its row of the conversion table of Extended JSON v2.

ghost use Rattle.std.specs.Prelude.{◌≡◌, ◌≤◌, ◌+◌, ◌++◌, ℕ, List, length, take, drop, true, false, IfOk, OnErr};
ghost use Rattle.std.specs.Float.{Ieee.of_bits, binary64, float_is_finite};
ghost use Rattle.bd_bson_view.specs.Sizes.{long_of};
ghost use Rattle.bd_bson_view.specs.Spelling.{as_double};
ghost use Rattle.bd_wide_text.specs.Layout.{Adds};
ghost use Rattle.bd_wide_dump.specs.WideText.{IsDoubleIn, IsNumberText, decimal_text, is_bare};
ghost use Rattle.bd_wide_dump.specs.inside.Begins.{AppendsBy};

use crate::format::JsonFormat;
use bd_extjson_text::{End, VALUE, append_few};
use bd_wide_text::{put, put_double, write_decimal128};

/// The first eight bytes as a number.
pub(crate) fn long(bytes: &[u8]) -> u64
    requires { 8 ≤ length bytes.now }
    ensures { result ≡ long_of bytes.now }
{
    let (prefix, _) = bytes.split_at(8);
    u64::from_le_bytes([
        prefix[0], prefix[1], prefix[2], prefix[3], prefix[4], prefix[5], prefix[6], prefix[7],
    ])
}

/// Whether a double is written without a wrapper.
#[inline(always)]
pub(crate) fn is_bare(format: JsonFormat, bits: u64) -> bool
    ensures { result ≡ is_bare format (of_bits binary64 bits) }
{
    match format {
        JsonFormat::Canonical => false,
        JsonFormat::Relaxed => is_finite(bits),
    }
}

/// Whether the double with these bits is neither infinite nor NaN: the eleven bits of its exponent are not all set.
#[inline(always)]
fn is_finite(bits: u64) -> bool
    ensures { result ≡ float_is_finite (of_bits binary64 bits) }
{
    bits % 0x8000_0000_0000_0000 / 0x10_0000_0000_0000 != 0x7FF
}

/// Writes the double at an offset of the bytes after the text in a buffer that has space for it, and returns the new end.
#[inline(never)]
pub(crate) fn put_double_there(
    format: JsonFormat,
    bytes: &[u8],
    start: usize,
    out: &mut Vec<u8>,
    end: usize,
) -> usize
    requires value { 8 ≤ length (drop start bytes.now) }
    requires buffer { end + VALUE ≤ length out.old.items }
    ensures { AppendsBy (λ text. IsNumberText format as_double (drop start bytes.now) text)
        out.old.items end result out.new.items }
{
    let (_, value) = bytes.split_at(start);
    let bits = long(value);
    put_double_in(is_bare(format, bits), bits, out.as_mut_slice(), end)
}

/// Writes a double, without a wrapper or in it, after the text in a buffer, and returns the new end.
#[inline(always)]
fn put_double_in(bare: bool, bits: u64, buffer: &mut [u8], end: usize) -> usize
    requires { end + VALUE ≤ length buffer.old }
    ensures appended { Adds (IsDoubleIn bare bits) (take end buffer.old) (take result buffer.new) }
    ensures end { result ≤ end + VALUE }
{
    if bare {
        return put_double(bits, buffer, end);
    }
    // A copy of its own cannot overlap the buffer, so nothing is compared before it.
    let lead = *b"{\"$numberDouble\":\"";
    let at = put(&lead, buffer, end);
    let at = put_double(bits, buffer, at);
    put(b"\"}", buffer, at)
}

/// Appends a double without a wrapper.
pub(crate) fn append_digits(bits: u64, out: &mut Vec<u8>, end: usize) -> End
    requires { end ≤ length out.old.items }
    ensures text { IfOk result (λ e.
        AppendsBy (λ text. IsDoubleIn true bits text) out.old.items end e out.new.items) }
    ensures err { OnErr result (take end out.new.items ≡ take end out.old.items) }
{
    let at = append_few(b"", out, end)?;
    Ok(put_double(bits, out.as_mut_slice(), at))
}

/// Appends the decimal128 at an offset of the bytes.
#[inline(never)]
pub(crate) fn append_decimal128(bytes: &[u8], start: usize, out: &mut Vec<u8>, end: usize) -> End
    requires value { 16 ≤ length (drop start bytes.now) }
    requires buffer { end ≤ length out.old.items }
    ensures text { IfOk result (λ e. AppendsBy
        (λ text. text ≡ decimal_text (drop start bytes.now))
        out.old.items end e out.new.items) }
    ensures err { OnErr result (take end out.new.items ≡ take end out.old.items) }
{
    let (_, value) = bytes.split_at(start);
    let (_, high) = value.split_at(8);
    let at = append_few(b"{\"$numberDecimal\":\"", out, end)?;
    out.truncate(at);
    write_decimal128(long(value), long(high), out)?;
    let at = out.len();
    append_few(b"\"}", out, at)
}
