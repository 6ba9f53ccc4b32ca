//! Text that is written into a buffer: the first `end` bytes are text, and those after them are free.
ghost use Rattle.std.specs.Prelude.{◌≡◌, ◌≤◌, ◌<◌, ◌+◌, ◌++◌, ◌∷◌, [], IfOk, OnOk, OnErr, is_ok, length, take};

use bd_value::NoMemory;
use std::alloc::AllocError;

/// How much more space is made than is needed, so that it is made seldom.
const SPARE: usize = 512;

/// More space than the text of a value takes that contains neither text nor bytes.
pub const VALUE: usize = 80;

/// Where the text ends after more of it is written.
pub type End = Result<usize, NoMemory>;

/// Makes space for `size` bytes after the text.
#[inline(always)]
pub(crate) fn grow_buffer(out: &mut Vec<u8>, end: usize, size: usize) -> Result<(), NoMemory>
    requires { end ≤ length out.old.items }
    ensures capacity { OnOk result (end + size ≤ length out.new.items) }
    ensures unchanged { take end out.new.items ≡ take end out.old.items }
    ensures within { end ≤ length out.new.items }
    ensures err { OnErr result (out.new.items ≡ out.old.items) }
{
    if size <= out.len() - end {
        return Ok(());
    }
    add_buffer(out, end, size)
}

/// `grow_buffer` if there is too little space.
#[cold]
#[inline(never)]
fn add_buffer(out: &mut Vec<u8>, end: usize, size: usize) -> Result<(), NoMemory>
    requires { (end ≤ length out.old.items) × (length out.old.items < end + size) }
    ensures capacity { OnOk result (end + size ≤ length out.new.items) }
    ensures unchanged { take end out.new.items ≡ take end out.old.items }
    ensures within { end ≤ length out.new.items }
    ensures err { OnErr result (out.new.items ≡ out.old.items) }
{
    let wanted = size.checked_add(end + SPARE).ok_or(AllocError)?;
    out.resize(wanted, 0)
}

/// Writes bytes after the text, and returns the new end.
#[inline(always)]
pub(crate) fn put(bytes: &[u8], buffer: &mut [u8], end: usize) -> usize
    requires { end + length bytes.now ≤ length buffer.old }
    ensures appended { take result buffer.new ≡ take end buffer.old ++ bytes.now }
    ensures end { result ≡ end + length bytes.now }
{
    let after = end + bytes.len();
    buffer[end..after].copy_from_slice(bytes);
    after
}

/// The same for bytes of a constant length, passed by value: no check is made whether they overlap the buffer.
#[inline(always)]
pub(crate) fn put_known<const N: usize>(bytes: [u8; N], buffer: &mut [u8], end: usize) -> usize
    requires { end + N ≤ length buffer.old }
    ensures appended { take result buffer.new ≡ take end buffer.old ++ bytes.entry }
    ensures end { result ≡ end + N }
{
    put(&bytes, buffer, end)
}

/// Writes a byte after the text, and returns the new end.
#[inline(always)]
pub(crate) fn put_byte(byte: u8, buffer: &mut [u8], end: usize) -> usize
    requires { end < length buffer.old }
    ensures appended { take result buffer.new ≡ take end buffer.old ++ byte ∷ [] }
    ensures end { result ≡ end + 1 }
{
    buffer[end] = byte;
    end + 1
}

/// The same in a vector, whose length is unchanged.
#[inline(always)]
pub(crate) fn put_byte_in(byte: u8, out: &mut Vec<u8>, end: usize) -> usize
    requires { end < length out.old.items }
    ensures appended { take result out.new.items ≡ take end out.old.items ++ byte ∷ [] }
    ensures end { result ≡ end + 1 }
    ensures size { length out.new.items ≡ length out.old.items }
{
    put_byte(byte, out.as_mut_slice(), end)
}

/// Truncates to the text: at its end, or on an error at its end before.
pub(crate) fn settle(end: End, before: usize, out: &mut Vec<u8>) -> Result<(), NoMemory>
    ensures ok { OnOk result (IfOk end (λ e. out.new.items ≡ take e out.old.items)) }
    ensures err { OnErr result (out.new.items ≡ take before out.old.items) }
    ensures same { is_ok result ≡ is_ok end }
{
    match end {
        Ok(end) => {
            out.truncate(end);
            Ok(())
        }
        Err(error) => {
            out.truncate(before);
            Err(error)
        }
    }
}
