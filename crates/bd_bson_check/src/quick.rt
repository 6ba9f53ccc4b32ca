//! Whether bytes are a document, found quickly: no fault is made. Where it says no, `check` finds the fault.

ghost use Rattle.std.specs.Prelude.{◌≡◌, ◌<◌, ◌≤◌, ℕ, List, Option, length, IfSome, IsTrue, Ok};
ghost use Rattle.bd_bson_view.specs.declared.raw_parts.Holder.TheVariants as holders;
ghost use Rattle.bd_bson_check.specs.FirstFault.{skip_document, skip_element, skip_elements, skip_nested};

use crate::parts::{after_frame, after_number, after_value, type_and_value};
use crate::profile::Profile;
use bd_bson_view::ElementType;
use bd_value::{Kind, MOST_LEVELS};

/// Whether all of the bytes are one document. It may also say no of a document with code with scope.
#[inline(always)]
#[tactic(auto, unfolding(crate::specs::FirstFault::skip_document))]
pub fn is_sound(profile: Profile, bytes: &[u8]) -> bool
    ensures { IsTrue result → (e : ℕ) → skip_document profile e bytes.now ≡ Ok tt }
{
    match after_frame(true, bytes) {
        Some((body, _)) => are_sound(profile, MOST_LEVELS as u32 - 1, body),
        None => false,
    }
}

/// Whether elements have no fault, with `depth_left` levels remaining below them.
#[cycle(quick)]
fn are_sound(profile: Profile, depth_left: u32, bytes: &[u8]) -> bool
    ensures { IsTrue result → (index : Option ℕ) (e : ℕ) →
        skip_elements profile (skip_nested profile depth_left) index (length bytes.now) e bytes.now
        ≡ Ok tt }
{
    let mut rest = bytes;
    while !rest.is_empty() {
        let Some(after) = after_element(profile, depth_left, rest) else {
            return false;
        };
        rest = after;
    }
    true
}

/// The bytes after an element.
#[cycle(quick)]
#[inline(always)]
fn after_element(profile: Profile, depth_left: u32, bytes: &[u8]) -> Option<&[u8]>
    requires { 0 < length bytes.now }
    ensures gives { IfSome result (λ x. (index : Option ℕ) (e : ℕ) →
        skip_element profile (skip_nested profile depth_left) index e bytes.now ≡ Ok x.now) }
    ensures after { IfSome result (λ x. length x.now < length bytes.now) }
{
    let (typed, value) = type_and_value(bytes)?;
    match typed {
        ElementType::Kept(kind) => match kind {
            Kind::Doc | Kind::Array => after_nested(profile, depth_left, value),
            _ => after_value(kind, value),
        },
        _ => after_number(profile, typed, value),
    }
}

/// The bytes after a document or an array, with `depth_left` levels remaining for it.
#[cycle(quick)]
fn after_nested(profile: Profile, depth_left: u32, bytes: &[u8]) -> Option<&[u8]>
    ensures gives { IfSome result (λ x. (q e : ℕ) →
        (skip_nested profile depth_left holders.Document q e bytes.now ≡ Ok x.now)
        × (skip_nested profile depth_left holders.Array q e bytes.now ≡ Ok x.now)) }
    ensures after { IfSome result (λ x. length x.now ≤ length bytes.now) }
{
    if depth_left == 0 {
        return None;
    }
    let (body, after) = after_frame(false, bytes)?;
    if !are_sound(profile, depth_left - 1, body) {
        return None;
    }
    Some(after)
}
