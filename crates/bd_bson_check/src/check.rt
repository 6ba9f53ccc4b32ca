//! The first fault of a document's bytes, from left to right, without a tree; and the documents of a dump in turn.

ghost use Rattle.std.specs.Prelude.{◌≡◌, ◌≤◌, ◌<◌, ◌+◌, ◌⊎◌, length, drop, slice_range, option_map, suc, IfOk, IfErr, IfSome, MatchResult, Ok, Err, Some, None, [], if◌then◌else◌};
ghost use Rattle.bd_value.specs.Limits.{longest_input};
ghost use Rattle.bd_value.specs.Tree.{Doc};
ghost use Rattle.bd_value.specs.View.{pairs};
ghost use Rattle.bd_bson_view.specs.Spelling.{IsDocument};
ghost use Rattle.bd_bson_view.specs.Raw.{document_pairs, document_source};
ghost use Rattle.bd_bson_check.specs.Fault.{ReportsFault, IsWantOfMemory};
ghost use Rattle.bd_bson_check.specs.inside.Fault.{GivesItem};
ghost use Rattle.bd_bson_check.specs.FirstFault.{skip_typed, skip_element, skip_elements, skip_body, skip_code_scope, skip_nested, skip_document, first_fault, fault_under};
ghost use Rattle.bd_bson_check.specs.Dump.{frame_length, frame_fault, IsNext};

use crate::fault::{
    Fault, FaultKind, Skipped, Stop, fault_at, fault_of, frame_fault, want_of_memory, within,
};
use crate::parts::{binary, boolean, code_frame, fixed, frame, name, regex, string, wide};
use crate::profile::Profile;
use crate::quick::is_sound;
use bd_bson_view::{ElementType, Holder, RawDoc, element_type, raw_parts};
use bd_value::{Document, Kind, LONGEST_DOCUMENT, MOST_LEVELS};
use std::alloc::Global;

/// Checks that all of the bytes are one document, which begins at the offset `base` of a dump and has that number in it, and
/// returns a view of it.
///
/// The fault is the first from left to right: BSON 1.1, `document`, with at most 16,793,600 bytes and 200 levels. Only the
/// path of a fault takes memory.
#[inline(always)]
pub fn check_document<'a>(
    alloc: Global,
    bytes: &'a [u8],
    base: u64,
    number: u32,
) -> Result<RawDoc<'a>, Fault>
    requires { base + length bytes.now ≤ longest_input }
    ensures spelled { IfOk result (λ d. IsDocument (document_pairs d) bytes.now) }
    ensures same_source { IfOk result (λ d. document_source d ≡ bytes.now) }
    ensures first { MatchResult result (λ _.
        first_fault base bytes.now ≡ None) (ReportsFault number (first_fault base bytes.now)) }
{
    check_bytes(alloc, Profile::Named, bytes, base, number)?;
    Ok(RawDoc::whole(bytes))
}

/// Checks that all of the bytes are one document of the types of a profile, which begins at the offset `base` of a dump and
/// has that number in it.
///
/// The fault is the first from left to right: BSON 1.1, `document`, with at most 16,793,600 bytes and 200 levels. Only the
/// path of a fault takes memory.
#[inline(always)]
pub fn check_bytes(
    alloc: Global,
    profile: Profile,
    bytes: &[u8],
    base: u64,
    number: u32,
) -> Result<(), Fault>
    requires { base + length bytes.now ≤ longest_input }
    ensures { MatchResult result (λ _. fault_under profile base bytes.now ≡ None)
        (ReportsFault number (fault_under profile base bytes.now)) }
{
    if is_sound(profile, bytes) {
        return Ok(());
    }
    match document(alloc, profile, base + bytes.len() as u64, bytes) {
        Ok(()) => Ok(()),
        Err(stop) => Err(fault_of(alloc, stop, number)),
    }
}

/// The document that all of the bytes are. It begins at the offset `base` of a dump and has that number in it.
///
/// The fault is the first from left to right, or `FaultKind::NoMemory`, which has no offset: BSON 1.1, `document`, with at
/// most 16,793,600 bytes and 200 levels.
pub fn read_document(alloc: Global, bytes: &[u8], base: u64, number: u32) -> Result<Document, Fault>
    requires { base + length bytes.now ≤ longest_input }
    // The document read is the one that the bytes spell.
    ensures found { IfOk result (λ d. IsDocument (pairs d) bytes.now) }
    // If the bytes spell a document, it is read, unless memory runs out.
    ensures only { (d : Doc) →
        IsDocument d bytes.now → MatchResult result (λ r. pairs r ≡ d) IsWantOfMemory }
    // The fault is the first that the bytes have; memory may also run out for the document.
    ensures fault { IfErr result (λ e. ReportsFault number (first_fault base bytes.now) e
        ⊎ (IsWantOfMemory e × (first_fault base bytes.now ≡ None))) }
{
    let raw = check_document(alloc, bytes, base, number)?;
    match raw.to_document(alloc) {
        Ok(document) => Ok(document),
        Err(_) => Err(want_of_memory(alloc)),
    }
}

/// The start and the length of a document in a dump.
#[derive(Clone, Copy, Debug, PartialEq, Eq)]
pub struct Frame {
    /// The offset of its first byte.
    pub start: usize,
    /// The number of its bytes, from 5 to 16,793,600.
    pub length: usize,
}

/// The frame of the document at the offset `at` of a dump, by its length at its start; None at the end.
///
/// Fewer than four bytes are `FaultKind::ShortLength`; a length below 5, above 16,793,600 or beyond the end is
/// `FaultKind::BadLength`. Both have the offset `at`, that number and an empty path. It takes no memory.
pub fn next_frame(
    alloc: Global,
    bytes: &[u8],
    at: usize,
    number: u32,
) -> Result<Option<Frame>, Fault>
    requires { at ≤ length bytes.now }
    ensures found { IfOk result (λ f.
        frame_length (drop at bytes.now) ≡ Ok (option_map (λ x. x.length) f)) }
    ensures meaning { IfOk result (λ f.
        IfSome f (λ x. (x.start ≡ at) × (at + x.length ≤ length bytes.now))) }
    ensures fault { IfErr result (λ e. frame_length (drop at bytes.now) ≡ Err e.kind) }
    ensures location { IfErr result (λ e. (e.document ≡ number)
        × (e.offset ≡ at) × (e.path.items ≡ [])) }
{
    let rest = &bytes[at..];
    if rest.is_empty() {
        return Ok(None);
    }
    if rest.len() < 4 {
        return Err(frame_fault(alloc, FaultKind::ShortLength, at, number));
    }
    let length = raw_parts::number(rest) as usize;
    if length < 5 || length > LONGEST_DOCUMENT || length > rest.len() {
        return Err(frame_fault(alloc, FaultKind::BadLength, at, number));
    }
    Ok(Some(Frame { start: at, length }))
}

/// The document at the offset `at` of a dump, in which it has that number, and the offset after it; None at the end.
///
/// The fault is the first of the document, from left to right, or `FaultKind::NoMemory`, which has no offset. Only the path
/// of a fault takes memory.
pub fn next_document<'a>(
    alloc: Global,
    bytes: &'a [u8],
    at: usize,
    number: u32,
) -> Result<Option<(RawDoc<'a>, usize)>, Fault>
    requires inside { at ≤ length bytes.now }
    requires short { length bytes.now ≤ longest_input }
    ensures next { IfOk result (IsNext bytes.now at) }
    ensures same_source { IfOk result (λ o.
        IfSome o (λ p. document_source p.0 ≡ slice_range bytes.now at p.1)) }
    ensures fault { IfErr result (ReportsFault number (frame_fault at (drop at bytes.now))) }
{
    let Some(frame) = next_frame(alloc, bytes, at, number)? else {
        return Ok(None);
    };
    let after = at + frame.length;
    let document = check_document(alloc, &bytes[at..after], at as u64, number)?;
    Ok(Some((document, after)))
}

/// Skips the document, which must be all of the bytes.
#[tactic(auto, unfolding(crate::specs::FirstFault::skip_document))]
fn document(alloc: Global, profile: Profile, e: u64, bytes: &[u8]) -> Result<(), Stop>
    requires { length bytes.now ≤ e }
    ensures { GivesItem (λ x. tt) result (skip_document profile e bytes.now) }
{
    let (body, end, _) = frame(alloc, true, e, bytes)?;
    elements(alloc, profile, MOST_LEVELS as u32 - 1, false, end, body)
}

/// Skips all elements.
#[cycle(checking)]
fn elements(
    alloc: Global,
    profile: Profile,
    depth_left: u32,
    in_array: bool,
    e: u64,
    bytes: &[u8],
) -> Result<(), Stop>
    requires { length bytes.now ≤ e }
    ensures { GivesItem (λ x. tt) result (skip_elements profile (skip_nested profile depth_left)
        (if in_array then Some 0 else None) (length bytes.now) e bytes.now) }
{
    let mut index = if in_array { Some(0) } else { None };
    let mut rest = bytes;
    while !rest.is_empty() {
        rest = element(alloc, profile, depth_left, index, e, rest)?;
        index = next(index);
    }
    Ok(())
}

/// The index of the next element; None in a document.
fn next(index: Option<usize>) -> Option<usize>
    requires { IfSome index (λ i. i < usize.MAX) }
    ensures { result ≡ option_map suc index }
{
    match index {
        None => None,
        Some(i) => Some(i + 1),
    }
}

/// Skips one element.
#[cycle(checking)]
#[tactic(auto, unfolding(crate::specs::FirstFault::skip_element))]
fn element(
    alloc: Global,
    profile: Profile,
    depth_left: u32,
    index: Option<usize>,
    e: u64,
    bytes: &[u8],
) -> Skipped<'_>
    requires some { 0 < length bytes.now }
    requires inside { length bytes.now ≤ e }
    ensures gives { GivesItem (λ x.
        x.now) result (skip_element profile (skip_nested profile depth_left) index e bytes.now) }
    ensures after { IfOk result (λ x. length x.now < length bytes.now) }
{
    let q = e - bytes.len() as u64;
    let Some(element_type) = element_type(bytes[0]) else {
        return Err(fault_at(alloc, FaultKind::UnknownType, q));
    };
    let (_, rest) = bytes.split_at(1);
    let (name, rest) = name(alloc, FaultKind::NameUnended, e, rest)?;
    match value(alloc, profile, depth_left, element_type, q, e, rest) {
        Ok(rest) => Ok(rest),
        Err(stop) => Err(within(alloc, index, name, stop)),
    }
}

/// Skips the value of an element whose type byte is at `q`.
#[cycle(checking)]
fn value(
    alloc: Global,
    profile: Profile,
    depth_left: u32,
    typed: ElementType,
    q: u64,
    e: u64,
    bytes: &[u8],
) -> Skipped<'_>
    requires { length bytes.now ≤ e }
    ensures gives { GivesItem (λ x.
        x.now) result (skip_typed profile (skip_nested profile depth_left) typed q e bytes.now) }
    ensures after { IfOk result (λ x. length x.now ≤ length bytes.now) }
{
    let kind = match typed {
        ElementType::Kept(kind) => kind,
        ElementType::Double => return wide(alloc, profile, FaultKind::Double, 8, q, e, bytes),
        ElementType::Decimal128 => {
            return wide(alloc, profile, FaultKind::Decimal128, 16, q, e, bytes);
        }
    };
    match kind {
        Kind::MinKey | Kind::Undefined | Kind::Null | Kind::MaxKey => Ok(bytes),
        Kind::Int32 => fixed(alloc, 4, e, bytes),
        Kind::Int64 | Kind::Date | Kind::Timestamp => fixed(alloc, 8, e, bytes),
        Kind::ObjectId => fixed(alloc, 12, e, bytes),
        Kind::Bool => boolean(alloc, e, bytes),
        Kind::Text | Kind::Symbol | Kind::Code => string(alloc, e, bytes),
        Kind::DbPointer => {
            let rest = string(alloc, e, bytes)?;
            fixed(alloc, 12, e, rest)
        }
        Kind::Binary => binary(alloc, e, bytes),
        Kind::Regex => regex(alloc, e, bytes),
        Kind::Doc => nested(alloc, profile, depth_left, Holder::Document, q, e, bytes),
        Kind::Array => nested(alloc, profile, depth_left, Holder::Array, q, e, bytes),
        Kind::CodeScope => nested(alloc, profile, depth_left, Holder::CodeScope, q, e, bytes),
    }
}

/// Skips a value that contains values, with `depth_left` levels remaining for it.
#[cycle(checking)]
fn nested(
    alloc: Global,
    profile: Profile,
    depth_left: u32,
    holder: Holder,
    q: u64,
    e: u64,
    bytes: &[u8],
) -> Skipped<'_>
    requires { length bytes.now ≤ e }
    ensures gives { GivesItem (λ x.
        x.now) result (skip_nested profile depth_left holder q e bytes.now) }
    ensures after { IfOk result (λ x. length x.now ≤ length bytes.now) }
{
    if depth_left == 0 {
        return Err(fault_at(alloc, FaultKind::TooDeep, q));
    }
    match holder {
        Holder::Document => body(alloc, profile, depth_left - 1, false, e, bytes),
        Holder::Array => body(alloc, profile, depth_left - 1, true, e, bytes),
        Holder::CodeScope => {
            if depth_left == 1 {
                return Err(fault_at(alloc, FaultKind::TooDeep, q));
            }
            code_scope(alloc, profile, depth_left - 1, q, e, bytes)
        }
    }
}

/// Skips a document or an array, with `depth_left` levels remaining below it.
#[cycle(checking)]
fn body(
    alloc: Global,
    profile: Profile,
    depth_left: u32,
    in_array: bool,
    e: u64,
    bytes: &[u8],
) -> Skipped<'_>
    requires { length bytes.now ≤ e }
    ensures gives { GivesItem (λ x.
        x.now) result (skip_body profile (skip_nested profile depth_left) in_array e bytes.now) }
    ensures after { IfOk result (λ x. length x.now ≤ length bytes.now) }
{
    let (body, end, rest) = frame(alloc, false, e, bytes)?;
    elements(alloc, profile, depth_left, in_array, end, body)?;
    Ok(rest)
}

/// Skips code with scope, with `depth_left` levels remaining for its scope.
#[cycle(checking)]
fn code_scope(
    alloc: Global,
    profile: Profile,
    depth_left: u32,
    q: u64,
    e: u64,
    bytes: &[u8],
) -> Skipped<'_>
    requires { length bytes.now ≤ e }
    ensures gives { GivesItem (λ x.
        x.now) result (skip_code_scope (skip_nested profile depth_left) q e bytes.now) }
    ensures after { IfOk result (λ x. length x.now ≤ length bytes.now) }
{
    let (parts, end, rest) = code_frame(alloc, e, bytes)?;
    let scope = string(alloc, end, parts)?;
    match nested(alloc, profile, depth_left, Holder::Document, q, end, scope) {
        Ok([]) => Ok(rest),
        Ok(_) => Err(fault_at(alloc, FaultKind::BadScopeLength, e - bytes.len() as u64)),
        Err(stop) => Err(within(alloc, None, "$scope", stop)),
    }
}
