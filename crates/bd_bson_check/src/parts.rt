//! The parts of a document's bytes, except nested values.
//!
//! `e` is the offset that an item may not exceed, and `bytes` are those up to it: the offset of the item is `e` less their
//! number. Most documents have no fault. The second half skips their parts quickly, and gives None if there may be one.

ghost use Rattle.std.specs.Prelude.{◌≡◌, ◌≤◌, ◌<◌, ◌+◌, ◌-◌, ◌^◌, ◌==◌, ◌||◌, ℕ, List, length, drop, take, map, position, nat_lt, IfOk, IfSome, IsAscii, IsTrue, Option, Some, Ok, true};
ghost use Rattle.std.specs.List.{list_any};
ghost use Rattle.std.specs.Simd.Lanes.{mask_l};
ghost use Rattle.std.specs.Str.{is_utf8};
ghost use Rattle.bd_bson_check.specs.inside.Fault.{GivesItem};
ghost use Rattle.bd_bson_check.specs.FirstFault.{skip_number, skip_zero, text_at, skip_name, skip_string, skip_frame, skip_fixed, skip_boolean, skip_binary, skip_regex, skip_code_frame, Nested, skip_element, skip_value, skip_wide, skip_typed};
ghost use Rattle.bd_bson_check.specs.declared.profile.Profile as profiles;

use crate::fault::{FaultKind, Skipped, Stop, fault_at};
use crate::profile::Profile;
use bd_bson_view::{ElementType, element_type, raw_parts as raw};
use bd_value::{Kind, LONGEST_DOCUMENT};
use std::alloc::Global;
use std::simd::prelude::*;

/// The bytes of a document's elements, the offset of their end, and the bytes after the document. If `top`, the document must
/// be all of the bytes.
#[tactic(auto, unfolding(crate::specs::FirstFault::skip_frame))]
pub fn frame(alloc: Global, top: bool, e: u64, bytes: &[u8]) -> Result<(&[u8], u64, &[u8]), Stop>
    requires { length bytes.now ≤ e }
    ensures gives { GivesItem (λ x. (x.0.now, x.1, x.2.now)) result (skip_frame top e bytes.now) }
    ensures inside { IfOk result (λ x. length x.0.now ≤ x.1) }
    ensures after { IfOk result (λ x. length x.2.now ≤ length bytes.now) }
{
    let short = if top {
        FaultKind::ShortLength
    } else {
        FaultKind::ValueShort
    };
    let (n, rest) = number(alloc, short, e, bytes)?;
    let n = n as usize;
    if n < 5 || n > LONGEST_DOCUMENT || n > bytes.len() || (top && n != bytes.len()) {
        return Err(fault_at(alloc, FaultKind::BadLength, e - bytes.len() as u64));
    }
    let (body, after) = rest.split_at(n - 5);
    let end = e - after.len() as u64;
    let rest = zero(alloc, FaultKind::NoTerminator, e, after)?;
    Ok((body, end, rest))
}

/// The bytes of the code and the scope of code with scope, the offset of their end, and the bytes after it.
#[tactic(auto, unfolding(crate::specs::FirstFault::skip_code_frame))]
pub fn code_frame(alloc: Global, e: u64, bytes: &[u8]) -> Result<(&[u8], u64, &[u8]), Stop>
    requires { length bytes.now ≤ e }
    ensures gives { GivesItem (λ x. (x.0.now, x.1, x.2.now)) result (skip_code_frame e bytes.now) }
    ensures inside { IfOk result (λ x. length x.0.now ≤ x.1) }
    ensures after { IfOk result (λ x. length x.2.now ≤ length bytes.now) }
{
    let (n, rest) = number(alloc, FaultKind::ValueShort, e, bytes)?;
    let n = n as usize;
    if n < 14 || n > bytes.len() {
        return Err(fault_at(alloc, FaultKind::BadScopeLength, e - bytes.len() as u64));
    }
    let (parts, after) = rest.split_at(n - 4);
    Ok((parts, e - after.len() as u64, after))
}

/// The bytes after a string.
#[tactic(auto, unfolding(crate::specs::FirstFault::skip_string))]
pub fn string(alloc: Global, e: u64, bytes: &[u8]) -> Skipped<'_>
    requires { length bytes.now ≤ e }
    ensures gives { GivesItem (λ x. x.now) result (skip_string e bytes.now) }
    ensures after { IfOk result (λ x. length x.now ≤ length bytes.now) }
{
    let (n, rest) = number(alloc, FaultKind::ValueShort, e, bytes)?;
    let n = n as usize;
    if n == 0 || n > rest.len() {
        return Err(fault_at(alloc, FaultKind::BadStringLength, e - bytes.len() as u64));
    }
    let (prefix, after) = rest.split_at(n - 1);
    let after = zero(alloc, FaultKind::StringUnended, e, after)?;
    let _text = text(alloc, e - rest.len() as u64, prefix)?;
    Ok(after)
}

/// The bytes after binary. Subtype 02 has a second count, of all of its data but the first four bytes.
#[tactic(auto, unfolding(crate::specs::FirstFault::skip_binary))]
pub fn binary(alloc: Global, e: u64, bytes: &[u8]) -> Skipped<'_>
    requires { length bytes.now ≤ e }
    ensures gives { GivesItem (λ x. x.now) result (skip_binary e bytes.now) }
    ensures after { IfOk result (λ x. length x.now ≤ length bytes.now) }
{
    let at = e - bytes.len() as u64;
    if bytes.len() < 5 {
        return Err(fault_at(alloc, FaultKind::ValueShort, at));
    }
    let count = raw::number(bytes);
    let (head, rest) = bytes.split_at(5);
    if count > 2_147_483_647 || count as usize > rest.len() {
        return Err(fault_at(alloc, FaultKind::BadBinaryLength, at));
    }
    if head[4] == 2 && count < 4 {
        return Err(fault_at(alloc, FaultKind::BadBinaryLength, at));
    }
    if head[4] == 2 && raw::number(rest) != count - 4 {
        return Err(fault_at(alloc, FaultKind::BadBinaryLength, at + 5));
    }
    let (_, rest) = rest.split_at(count as usize);
    Ok(rest)
}

/// The bytes after a regular expression.
pub fn regex(alloc: Global, e: u64, bytes: &[u8]) -> Skipped<'_>
    requires { length bytes.now ≤ e }
    ensures gives { GivesItem (λ x. x.now) result (skip_regex e bytes.now) }
    ensures after { IfOk result (λ x. length x.now ≤ length bytes.now) }
{
    let (_pattern, rest) = name(alloc, FaultKind::StringUnended, e, bytes)?;
    let (_options, rest) = name(alloc, FaultKind::StringUnended, e, rest)?;
    Ok(rest)
}

/// The text up to the first zero, and the bytes after that zero. `unended` is the fault if there is no zero.
#[inline(always)]
#[tactic(auto, unfolding(crate::specs::FirstFault::skip_name))]
pub fn name(alloc: Global, unended: FaultKind, e: u64, bytes: &[u8]) -> Result<(&str, &[u8]), Stop>
    requires { length bytes.now ≤ e }
    ensures gives { GivesItem (λ x. (x.0.now, x.1.now)) result (skip_name unended e bytes.now) }
    ensures after { IfOk result (λ x. length x.1.now < length bytes.now) }
{
    let at = e - bytes.len() as u64;
    let Some(k) = raw::first_zero(bytes) else {
        return Err(fault_at(alloc, unended, at));
    };
    let (prefix, _) = bytes.split_at(k);
    let (_, rest) = bytes.split_at(k + 1);
    Ok((text(alloc, at, prefix)?, rest))
}

/// The bytes after a boolean.
pub fn boolean(alloc: Global, e: u64, bytes: &[u8]) -> Skipped<'_>
    requires { length bytes.now ≤ e }
    ensures gives { GivesItem (λ x. x.now) result (skip_boolean e bytes.now) }
    ensures after { IfOk result (λ x. length x.now ≤ length bytes.now) }
{
    match bytes {
        [] => Err(fault_at(alloc, FaultKind::ValueShort, e)),
        [0 | 1, rest @ ..] => Ok(rest),
        _ => Err(fault_at(alloc, FaultKind::BadBoolean, e - bytes.len() as u64)),
    }
}

/// The bytes after a double or a decimal128, which takes `n` bytes and whose type byte is at `q`. If the profile does not read
/// it, it has the fault `refused` there.
pub fn wide(
    alloc: Global,
    profile: Profile,
    refused: FaultKind,
    n: usize,
    q: u64,
    e: u64,
    bytes: &[u8],
) -> Skipped<'_>
    requires { length bytes.now ≤ e }
    ensures gives { GivesItem (λ x. x.now) result (skip_wide profile refused n q e bytes.now) }
    ensures after { IfOk result (λ x. length x.now ≤ length bytes.now) }
{
    match profile {
        Profile::Named => Err(fault_at(alloc, refused, q)),
        Profile::All => fixed(alloc, n, e, bytes),
    }
}

/// The bytes after `n` bytes.
pub fn fixed(alloc: Global, n: usize, e: u64, bytes: &[u8]) -> Skipped<'_>
    requires { length bytes.now ≤ e }
    ensures gives { GivesItem (λ x. x.now) result (skip_fixed n e bytes.now) }
    ensures after { IfOk result (λ x. length x.now ≤ length bytes.now) }
{
    if bytes.len() < n {
        return Err(fault_at(alloc, FaultKind::ValueShort, e - bytes.len() as u64));
    }
    let (_, rest) = bytes.split_at(n);
    Ok(rest)
}

/// A number of four bytes, and the bytes after it.
pub fn number(alloc: Global, short: FaultKind, e: u64, bytes: &[u8]) -> Result<(u32, &[u8]), Stop>
    requires { length bytes.now ≤ e }
    ensures gives { GivesItem (λ x. (x.0, x.1.now)) result (skip_number short e bytes.now) }
    ensures after { IfOk result (λ x. length x.1.now + 4 ≡ length bytes.now) }
{
    if bytes.len() < 4 {
        return Err(fault_at(alloc, short, e - bytes.len() as u64));
    }
    let (_, rest) = bytes.split_at(4);
    Ok((raw::number(bytes), rest))
}

/// The bytes after a zero.
fn zero(alloc: Global, kind: FaultKind, e: u64, bytes: &[u8]) -> Skipped<'_>
    requires { length bytes.now ≤ e }
    ensures gives { GivesItem (λ x. x.now) result (skip_zero kind e bytes.now) }
    ensures after { IfOk result (λ x. length x.now + 1 ≡ length bytes.now) }
{
    match bytes {
        [0, rest @ ..] => Ok(rest),
        _ => Err(fault_at(alloc, kind, e - bytes.len() as u64)),
    }
}

/// The bytes as text; `at` is their offset.
#[inline(always)]
fn text(alloc: Global, at: u64, bytes: &[u8]) -> Result<&str, Stop>
    requires { at + length bytes.now < 2 ^ 64 }
    ensures { GivesItem (λ x. x.now) result (text_at at bytes.now) }
{
    if is_short_ascii(bytes) {
        // ASCII is UTF-8.
        return Ok(unsafe { std::str::from_utf8_unchecked(bytes) });
    }
    match simdutf8::compat::from_utf8(bytes) {
        Ok(text) => Ok(text),
        Err(error) => Err(fault_at(alloc, FaultKind::BadUtf8, at + error.valid_up_to() as u64)),
    }
}

// ---- quickly

/// The type of an element, and the bytes after its name; None if there is no such type, or its name has a fault.
#[inline(always)]
pub fn type_and_value(bytes: &[u8]) -> Option<(ElementType, &[u8])>
    requires { 0 < length bytes.now }
    ensures gives { IfSome result (λ x. (profile : profiles.Profile)
        (nested : Nested) (index : Option ℕ) (e : ℕ) (after : List ℕ) →
        skip_typed profile nested x.0 (e - length bytes.now) e x.1.now ≡ Ok after →
        skip_element profile nested index e bytes.now ≡ Ok after) }
    ensures after { IfSome result (λ x. length x.1.now < length bytes.now) }
{
    let (_, named) = bytes.split_at(1);
    let value = after_name(named)?;
    match element_type(bytes[0]) {
        Some(typed) => Some((typed, value)),
        None => None,
    }
}

/// The bytes after a double or a decimal128; None if the profile does not read it, or it is another type, or has a fault.
#[inline(always)]
pub fn after_number(profile: Profile, typed: ElementType, bytes: &[u8]) -> Option<&[u8]>
    ensures gives { IfSome result (λ x. (nested : Nested) (q e : ℕ) →
        skip_typed profile nested typed q e bytes.now ≡ Ok x.now) }
    ensures after { IfSome result (λ x. length x.now ≤ length bytes.now) }
{
    match (profile, typed) {
        (Profile::All, ElementType::Double) => after(8, bytes),
        (Profile::All, ElementType::Decimal128) => after(16, bytes),
        _ => None,
    }
}

/// The bytes after a value of that kind, which contains no value; None if it is another, or has a fault.
#[inline(always)]
pub fn after_value(kind: Kind, bytes: &[u8]) -> Option<&[u8]>
    ensures gives { IfSome result (λ x. (nested : Nested) (q e : ℕ) →
        skip_value nested kind q e bytes.now ≡ Ok x.now) }
    ensures after { IfSome result (λ x. length x.now ≤ length bytes.now) }
{
    match kind {
        Kind::MinKey | Kind::Undefined | Kind::Null | Kind::MaxKey => Some(bytes),
        Kind::Int32 => after(4, bytes),
        Kind::Int64 | Kind::Date | Kind::Timestamp => after(8, bytes),
        Kind::ObjectId => after(12, bytes),
        Kind::Bool => match bytes {
            [0 | 1, rest @ ..] => Some(rest),
            _ => None,
        },
        Kind::Text | Kind::Symbol | Kind::Code => after_string(bytes),
        Kind::DbPointer => after(12, after_string(bytes)?),
        Kind::Binary => after_binary(bytes),
        Kind::Regex => after_name(after_name(bytes)?),
        Kind::Doc | Kind::Array | Kind::CodeScope => None,
    }
}

/// The bytes of a document's elements, and the bytes after the document; None if its frame has a fault. If `top`, the
/// document must be all of the bytes.
#[inline(always)]
#[tactic(auto, unfolding(crate::specs::FirstFault::skip_frame))]
pub fn after_frame(top: bool, bytes: &[u8]) -> Option<(&[u8], &[u8])>
    ensures gives { IfSome result (λ x. (e : ℕ) →
        skip_frame top e bytes.now ≡ Ok (x.0.now, e - (length x.1.now + 1), x.1.now)) }
    ensures after { IfSome result (λ x. length x.1.now ≤ length bytes.now) }
{
    if bytes.len() < 4 {
        return None;
    }
    let n = raw::number(bytes) as usize;
    let (_, rest) = bytes.split_at(4);
    if n < 5 || n > LONGEST_DOCUMENT || bytes.len() < n || (top && bytes.len() != n) {
        return None;
    }
    let (body, end) = rest.split_at(n - 5);
    match end {
        [0, after @ ..] => Some((body, after)),
        _ => None,
    }
}

/// The bytes after binary.
#[inline(always)]
#[tactic(auto, unfolding(crate::specs::FirstFault::skip_binary))]
fn after_binary(bytes: &[u8]) -> Option<&[u8]>
    ensures gives { IfSome result (λ x. (e : ℕ) → skip_binary e bytes.now ≡ Ok x.now) }
    ensures after { IfSome result (λ x. length x.now ≤ length bytes.now) }
{
    if bytes.len() < 5 {
        return None;
    }
    let count = raw::number(bytes);
    let (head, rest) = bytes.split_at(5);
    if count > 2_147_483_647 || count as usize > rest.len() {
        return None;
    }
    if head[4] == 2 && (count < 4 || raw::number(rest) != count - 4) {
        return None;
    }
    let (_, after) = rest.split_at(count as usize);
    Some(after)
}

/// The bytes after a string.
#[inline(always)]
#[tactic(auto, unfolding(crate::specs::FirstFault::skip_string))]
fn after_string(bytes: &[u8]) -> Option<&[u8]>
    ensures gives { IfSome result (λ x. (e : ℕ) → skip_string e bytes.now ≡ Ok x.now) }
    ensures after { IfSome result (λ x. length x.now ≤ length bytes.now) }
{
    if bytes.len() < 4 {
        return None;
    }
    let n = raw::number(bytes) as usize;
    let (_, rest) = bytes.split_at(4);
    if n == 0 || n > rest.len() {
        return None;
    }
    let (text, end) = rest.split_at(n - 1);
    match end {
        [0, after @ ..] if is_text(text) => Some(after),
        _ => None,
    }
}

/// The bytes after `n` bytes.
#[inline(always)]
fn after(n: usize, bytes: &[u8]) -> Option<&[u8]>
    ensures { IfSome result (λ x. (n ≤ length bytes.now) × (x.now ≡ drop n bytes.now)) }
{
    if bytes.len() < n {
        return None;
    }
    let (_, rest) = bytes.split_at(n);
    Some(rest)
}

/// The bytes after a name.
#[inline(always)]
fn after_name(bytes: &[u8]) -> Option<&[u8]>
    ensures { IfSome result (λ x. (k : ℕ)
        × (position (λ b. b == 0) bytes.now ≡ Some k) × (is_utf8 (take k bytes.now) ≡ true)
        × (k < length bytes.now) × (x.now ≡ drop (k + 1) bytes.now)) }
{
    let k = ascii_end(bytes)?;
    if bytes[k] != 0 {
        return after_other_name(bytes);
    }
    let (_, after) = bytes.split_at(k + 1);
    Some(after)
}

/// The same of a name that is not ASCII.
fn after_other_name(bytes: &[u8]) -> Option<&[u8]>
    ensures { IfSome result (λ x. (k : ℕ)
        × (position (λ b. b == 0) bytes.now ≡ Some k) × (is_utf8 (take k bytes.now) ≡ true)
        × (k < length bytes.now) × (x.now ≡ drop (k + 1) bytes.now)) }
{
    let k = raw::first_zero(bytes)?;
    let (name, _) = bytes.split_at(k);
    if !is_text(name) {
        return None;
    }
    let (_, after) = bytes.split_at(k + 1);
    Some(after)
}

/// How many bytes are examined together. Most names are shorter.
const LANES: usize = 16;

/// The offset of the first byte that is zero or not ASCII.
#[inline(always)]
fn ascii_end(bytes: &[u8]) -> Option<usize>
    ensures { result ≡ position (λ b. b == 0 || nat_lt 127 b) bytes.now }
{
    if bytes.len() >= LANES {
        let found = ascii_ends(u8x16::from_slice(bytes));
        if found != 0 {
            return Some(found.trailing_zeros() as usize);
        }
    }
    bytes.iter().position(|b| *b == 0 || *b > 127)
}

/// Which of the bytes are zero or not ASCII, a bit each.
#[inline(always)]
fn ascii_ends(bytes: u8x16) -> u64
    ensures { result ≡ mask_l (map (λ b. b == 0 || nat_lt 127 b) bytes) }
{
    // After adding 128, they are at most 128.
    (bytes + u8x16::splat(128))
        .simd_le(u8x16::splat(128))
        .to_bitmask()
}

/// Whether bytes are UTF-8.
#[inline(always)]
fn is_text(bytes: &[u8]) -> bool
    ensures { result ≡ is_utf8 bytes.now }
{
    if is_short_ascii(bytes) {
        return true;
    }
    match simdutf8::compat::from_utf8(bytes) {
        Ok(_) => true,
        Err(_) => false,
    }
}

/// Whether bytes are few and ASCII, as most names and texts are. Others are checked for UTF-8.
#[inline(always)]
fn is_short_ascii(bytes: &[u8]) -> bool
    ensures { IsTrue result → IsAscii bytes.now }
{
    match bytes.len() {
        0..=3 => !any_beyond_ascii(bytes),
        4..=7 => are_ascii(4, bytes),
        8..=15 => are_ascii(8, bytes),
        16..=31 => are_ascii(16, bytes),
        32..=64 => are_ascii(32, bytes),
        _ => false,
    }
}

/// Whether all bytes, at least `size` and at most twice as many, are ASCII. The first and the last `size` are examined, so
/// that each loop is of a known length.
#[inline(always)]
fn are_ascii(size: usize, bytes: &[u8]) -> bool
    requires { (size ≤ length bytes.now) × (length bytes.now ≤ size + size) }
    ensures { IsTrue result → IsAscii bytes.now }
{
    let (first, _) = bytes.split_at(size);
    let (_, last) = bytes.split_at(bytes.len() - size);
    let any = any_beyond_ascii(first) | any_beyond_ascii(last);
    !any
}

/// Whether a byte of these is not ASCII. No byte ends the loop, so that all are examined together.
#[inline(always)]
fn any_beyond_ascii(bytes: &[u8]) -> bool
    ensures { result ≡ list_any (λ b. nat_lt 127 b) bytes.now }
{
    let mut any = false;
    for b in bytes {
        any |= *b > 127;
    }
    any
}
