//! The common parts of both texts. On `NoMemory` a prefix of what is appended may remain.

ghost use Rattle.std.specs.Prelude.{◌≡◌, ◌<◌, ◌≤◌, ◌+◌, ◌++◌, length, take, OnErr, OnOk};
ghost use Rattle.std.specs.Io.{StartsWith};
ghost use Rattle.bd_wide_text.specs.Layout.{mantissa, zeros as zeros_of};

use bd_value::NoMemory;

/// Writes bytes after the text in a buffer, and returns the new end.
#[inline(always)]
pub fn put(bytes: &[u8], buffer: &mut [u8], end: usize) -> usize
    requires { end + length bytes.now ≤ length buffer.old }
    ensures appended { take result buffer.new ≡ take end buffer.old ++ bytes.now }
    ensures end { result ≡ end + length bytes.now }
{
    let after = end + bytes.len();
    buffer[end..after].copy_from_slice(bytes);
    after
}

/// Writes the first digit of two runs of digits after the text, and if there are others, a point and the others.
pub(crate) fn put_mantissa(digits: &[u8], more: &[u8], buffer: &mut [u8], end: usize) -> usize
    requires some { 0 < length digits.now }
    requires space { end + (length digits.now + length more.now + 1) ≤ length buffer.old }
    ensures appended { take result buffer.new
        ≡ take end buffer.old ++ mantissa (digits.now ++ more.now) }
    ensures end { result ≤ end + (length digits.now + length more.now + 1) }
{
    let (first, others) = digits.split_at(1);
    let at = put(first, buffer, end);
    if others.is_empty() && more.is_empty() {
        return at;
    }
    let at = put(b".", buffer, at);
    let at = put(others, buffer, at);
    put(more, buffer, at)
}

/// Appends the first digit of two runs of digits, and if there are others, a point and the others.
#[tactic(auto, using(bd_value::proofs::PrefixLemmas::prefixes))]
pub(crate) fn write_mantissa(digits: &[u8], more: &[u8], out: &mut Vec<u8>) -> Result<(), NoMemory>
    requires { 0 < length digits.now }
    ensures ok { OnOk result (out.new.items ≡ out.old.items ++ mantissa (digits.now ++ more.now)) }
    ensures prefix { OnErr result (StartsWith out.new.items out.old.items) }
{
    let (first, others) = digits.split_at(1);
    out.extend_from_slice(first)?;
    if others.is_empty() && more.is_empty() {
        return Ok(());
    }
    out.extend_from_slice(b".")?;
    out.extend_from_slice(others)?;
    out.extend_from_slice(more)
}

/// Appends `count` zeros.
#[tactic(auto, using(bd_value::proofs::PrefixLemmas::prefixes))]
pub(crate) fn write_zeros(count: usize, out: &mut Vec<u8>) -> Result<(), NoMemory>
    ensures ok { OnOk result (out.new.items ≡ out.old.items ++ zeros_of count) }
    ensures prefix { OnErr result (StartsWith out.new.items out.old.items) }
{
    for _ in 0..count {
        out.push(b'0')?;
    }
    Ok(())
}
