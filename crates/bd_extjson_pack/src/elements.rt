//! Elements, appended to bytes. The byte for the type of an element is put there last, once its value was appended.
ghost use Rattle.std.specs.Prelude.{◌≡◌, ◌≤◌, ◌<◌, ◌+◌, ◌++◌, ◌∷◌, [], ℕ, List, IfErr, IfOk, OnOk, decimal, false, length, take, drop, vec_len};
ghost use Rattle.bd_value.specs.Fits.{zero_in_leaf};
ghost use Rattle.bd_value.specs.View.{view_of};
ghost use Rattle.bd_value.specs.Limits.{longest_document};
ghost use Rattle.bd_bson_write.specs.TreeBytes.{OverrunsLimit, leaf_bytes};
ghost use Rattle.bd_bson_view.specs.Spelling.{number, type_byte as byte_of};

use bd_bson_view::type_byte;
use bd_bson_write::{WriteFault, write_scalar};
use bd_value::{Kind, LONGEST_DOCUMENT, Scalar};

/// Begins an element by its name between two bytes: `end_element` replaces the first by its type, and a zero replaces the last.
/// So a name in quotation marks is copied at once. Returns the offset of the first.
#[inline(always)]
pub fn begin_element(label: &[u8], out: &mut Vec<u8>) -> Result<usize, WriteFault>
    requires { 0 < length label.now }
    ensures ok { IfOk result (λ at. (at ≡ length out.old.items)
        × ((name : List ℕ) (first : ℕ) (last : ℕ) → label.now ≡ first ∷ (name ++ last ∷ []) →
        out.new.items ≡ out.old.items ++ (first ∷ (name ++ 0 ∷ [])))) }
    ensures within { OnOk result (length out.old.items ≤ longest_document) }
    ensures fault { IfErr result (OverrunsLimit (length out.old.items)) }
{
    let at = out.len();
    if at > LONGEST_DOCUMENT {
        return Err(WriteFault::TooLong);
    }
    out.extend_from_slice(label)?;
    set_last(0, out);
    Ok(at)
}

/// The most digits of a 64-bit number.
const DIGITS: usize = 20;

/// The same for an element of an array, whose name is its index.
#[inline(always)]
pub fn begin_item(index: u32, out: &mut Vec<u8>) -> Result<usize, WriteFault>
    ensures ok { IfOk result (λ at. (at ≡ length out.old.items) × ((first : ℕ)
        × (out.new.items ≡ out.old.items ++ (first ∷ (decimal index ++ 0 ∷ []))))) }
    ensures within { OnOk result (length out.old.items ≤ longest_document) }
    ensures fault { IfErr result (OverrunsLimit (length out.old.items)) }
{
    let mut digits = [0; 2 * DIGITS];
    let start = itoa::write_digits(u64::from(index), &mut digits, DIGITS);
    begin_element(&digits[start - 1..DIGITS + 1], out)
}

/// Puts the type of an element at its offset.
#[inline(always)]
pub(crate) fn end_element(at: usize, kind: Kind, out: &mut Vec<u8>)
    requires { at < vec_len out.old }
    ensures { (before : List ℕ) (first : ℕ) (after : List ℕ) →
        out.old.items ≡ before ++ (first ∷ after) → at ≡ length before →
        out.new.items ≡ before ++ (byte_of kind ∷ after) }
{
    out[at] = type_byte(kind);
}

/// Puts a byte in the place of the last one.
#[inline(always)]
pub(crate) fn set_last(byte: u8, out: &mut Vec<u8>)
    requires { 0 < vec_len out.old }
    ensures { (before : List ℕ) (last : ℕ) →
        out.old.items ≡ before ++ (last ∷ []) → out.new.items ≡ before ++ (byte ∷ []) }
{
    let last = out.len() - 1;
    out[last] = byte;
}

/// Appends the value of a scalar of that kind, and returns the kind.
#[inline(always)]
pub(crate) fn append_leaf(
    kind: Kind,
    scalar: Scalar<'_>,
    out: &mut Vec<u8>,
) -> Result<Kind, WriteFault>
    requires { zero_in_leaf (view_of scalar) ≡ false }
    ensures ok { IfOk result (λ k. (k ≡ kind)
        × (out.new.items ≡ out.old.items ++ leaf_bytes (view_of scalar.entry))) }
    ensures fault { IfErr result
        (OverrunsLimit (length out.old.items + length (leaf_bytes (view_of scalar.entry)))) }
{
    write_scalar(scalar, out)?;
    Ok(kind)
}

/// Puts the length of a string at its offset: of its contents with their zero, which come after it.
#[inline(always)]
#[tactic(auto, unfolding(bd_bson_view::specs::Spelling::number))]
pub(crate) fn end_string(at: usize, out: &mut Vec<u8>) -> Result<(), WriteFault>
    requires { at + 4 ≤ vec_len out.old }
    ensures { OnOk result (out.new.items ≡ take at out.old.items
        ++ (number (length (drop (at + 4) out.old.items)) ++ drop (at + 4) out.old.items)) }
{
    let length = out.len() - at - 4;
    if length > LONGEST_DOCUMENT {
        return Err(WriteFault::TooLong);
    }
    let bytes: &mut [u8] = out;
    bytes[at..at + 4].copy_from_slice(&(length as u32).to_le_bytes());
    Ok(())
}
