//! What is wrong with a part of a text that is JSON: a number, a name, or an object that begins as a wrapper.
ghost use Rattle.std.specs.Prelude.{◌≡◌, length, IfOk, option_map};
ghost use Rattle.std.specs.Option.{option_map_or};
ghost use Rattle.json.specs.Find.{as_object};
ghost use Rattle.json.specs.Value.{value_view, members_view};
ghost use Rattle.bd_extjson_fault.specs.TreeFault.{json_in, unquoted, number_fault};
ghost use Rattle.bd_extjson_fault.specs.TreeFault.{is_outside_profile, is_formed, refusal, single_fault, members_fault, wrapper_fault, is_whole};
ghost use Rattle.bd_value.specs.Fits.{has_zero as zero_in};
ghost use Rattle.bd_extjson_wrapper.specs.Wrapper.{wrapper_of};
ghost use Rattle.bd_extjson_wrapper.specs.declared.wrapper.Wrapper.TheVariants as wrappers;

use bd_extjson_wrapper::{
    Trouble, Wrapper, is_whole_number, number_of, only, pair, unwrap_single, whole,
};
use bd_value::{MOST_BRACKETS, has_zero};
use json::{Error, Reader, Scratch, Value};
use std::alloc::{AllocError, Global};

/// Which rule of Extended JSON a part of a text breaks.
#[derive(Clone, Copy, Debug, Drop, PartialEq, Eq)]
pub(crate) enum TreeFaultKind {
    TooDeep,
    BadWrapper,
    NotInProfile,
    NumberRange,
    NulInName,
}

/// A fault of the tree, and the number of bytes from its offset to the end of the text.
#[derive(Clone, Copy, Debug, Drop, PartialEq, Eq)]
pub(crate) struct TreeFault {
    pub kind: TreeFaultKind,
    pub remaining: usize,
}

impl TreeFault {
    /// A fault at the first byte of the rest of the text.
    pub fn at(rest: &[u8], kind: TreeFaultKind) -> TreeFault
        ensures { result ≡ record { kind = kind; remaining = length rest.now } }
    {
        let remaining = rest.len();
        TreeFault { kind, remaining }
    }
}

/// What is wrong with a number outside wrappers.
#[tactic(auto, unfolding(crate::specs::TreeFault::number_fault))]
pub(crate) fn number_fault(number: &[u8]) -> Option<TreeFaultKind>
    ensures { result ≡ number_fault number.now }
{
    if !is_whole_number(number) {
        return Some(TreeFaultKind::NotInProfile);
    }
    match str::from_utf8(number) {
        Ok(text) if whole(text).is_some() => None,
        _ => Some(TreeFaultKind::NumberRange),
    }
}

/// The JSON value that the bytes begin with.
#[tactic(auto, unfolding(crate::specs::TreeFault::json_in))]
fn read_json<'a>(
    alloc: Global,
    bytes: &'a [u8],
    scratch: &'a mut Scratch,
) -> Result<Option<Value<'a>>, AllocError>
    ensures { IfOk result (λ v. option_map value_view v ≡ json_in bytes.now) }
{
    let Ok(text) = str::from_utf8(bytes) else {
        return Ok(None);
    };
    let mut reader = Reader::new(text, scratch)?;
    match Value::read(alloc, &mut reader, MOST_BRACKETS) {
        Ok(value) => Ok(Some(value)),
        Err(Error::OutOfMemory) => Err(AllocError),
        Err(_) => Ok(None),
    }
}

/// The wrapper of the name of a member, and whether it contains a zero.
#[derive(Clone, Copy, Drop)]
pub(crate) struct Name {
    pub wrapper: Option<Wrapper>,
    pub has_zero: bool,
}

/// Reads a name in quotation marks, with escapes or without.
pub(crate) fn read_name(
    alloc: Global,
    quoted: &[u8],
    scratch: &mut Scratch,
) -> Result<Name, AllocError>
    ensures wrapper { IfOk result (λ name. name.wrapper ≡ wrapper_of (unquoted quoted.now)) }
    ensures zero { IfOk result (λ name. name.has_zero ≡ zero_in (unquoted quoted.now)) }
{
    let name = match read_json(alloc, quoted, scratch)? {
        Some(Value::String(name)) => name,
        _ => "",
    };
    Ok(Name {
        wrapper: Wrapper::from_name(name),
        has_zero: has_zero(name),
    })
}

/// Why an object is not the wrapper of its first name. Code with scope is checked elsewhere.
pub(crate) fn wrapper_fault(
    alloc: Global,
    wrapper: Wrapper,
    object: &[u8],
    scratch: &mut Scratch,
) -> Result<Option<TreeFaultKind>, AllocError>
    ensures { IfOk result (λ fault. fault ≡ wrapper_fault wrapper (json_in object.now)) }
{
    let Some(value) = read_json(alloc, object, scratch)? else {
        return Ok(Some(TreeFaultKind::BadWrapper));
    };
    match members_of(&value) {
        Some(members) => members_fault(alloc, wrapper, members),
        None => Ok(Some(TreeFaultKind::BadWrapper)),
    }
}

/// The names and the values of an object.
fn members_of<'v, 'a>(value: &'v Value<'a>) -> Option<&'v [(&'a str, Value<'a>)]>
    ensures { option_map (λ ms. members_view ms.now) result ≡ as_object (value_view value.now) }
{
    match value {
        Value::Object(members) => Some(members.as_slice()),
        _ => None,
    }
}

/// First come the forms that are recognised but not supported.
#[tactic(auto, using(crate::proofs::TreeFaultLemmas::one_member))]
fn members_fault(
    alloc: Global,
    wrapper: Wrapper,
    members: &[(&str, Value<'_>)],
) -> Result<Option<TreeFaultKind>, AllocError>
    ensures { IfOk result (λ fault. fault ≡ members_fault wrapper (members_view members.now)) }
{
    if members.is_empty() {
        return Ok(Some(TreeFaultKind::BadWrapper));
    }
    let (_, part) = &members[0];
    if is_outside_profile(wrapper, part) {
        return Ok(Some(TreeFaultKind::NotInProfile));
    }
    if members.len() != 1 {
        return Ok(Some(TreeFaultKind::BadWrapper));
    }
    single_fault(alloc, wrapper, part)
}

/// What is wrong with an object of one name, by the value after it.
fn single_fault(
    alloc: Global,
    wrapper: Wrapper,
    part: &Value<'_>,
) -> Result<Option<TreeFaultKind>, AllocError>
    ensures { IfOk result (λ fault. fault ≡ single_fault wrapper (value_view part.now)) }
{
    match unwrap_single(alloc, wrapper, part).err() {
        None => Ok(None),
        Some(Trouble::Memory) => Err(AllocError),
        Some(Trouble::Refused) => Ok(Some(refusal(wrapper, part))),
    }
}

fn is_outside_profile(wrapper: Wrapper, part: &Value<'_>) -> bool
    ensures { result ≡ is_outside_profile wrapper (value_view part.now) }
{
    match wrapper {
        Wrapper::NumberDouble | Wrapper::NumberDecimal | Wrapper::Uuid => true,
        Wrapper::Date | Wrapper::Binary => part.as_str().is_some(),
        _ => false,
    }
}

/// Why a part is not a value of its wrapper: if its form is right, its number is out of range or its text contains a zero.
fn refusal(wrapper: Wrapper, part: &Value<'_>) -> TreeFaultKind
    ensures { result ≡ refusal wrapper (value_view part.now) }
{
    match wrapper {
        _ if !is_formed(wrapper, part) => TreeFaultKind::BadWrapper,
        Wrapper::RegularExpression => TreeFaultKind::NulInName,
        _ => TreeFaultKind::NumberRange,
    }
}

/// Whether a part has the form that its wrapper needs, whatever the size of its numbers and the contents of its texts.
fn is_formed(wrapper: Wrapper, part: &Value<'_>) -> bool
    ensures { result ≡ is_formed wrapper (value_view part.now) }
{
    match wrapper {
        Wrapper::NumberInt | Wrapper::NumberLong => is_whole(part.as_str()),
        Wrapper::Date => is_formed_date(part),
        Wrapper::Timestamp => is_formed_timestamp(part),
        Wrapper::RegularExpression => is_formed_regex(part),
        _ => false,
    }
}

fn is_formed_date(part: &Value<'_>) -> bool
    ensures { result ≡ is_formed wrappers.Date (value_view part.now) }
{
    match only(part, "$numberLong") {
        Some(long) => is_whole(long.as_str()),
        None => false,
    }
}

fn is_formed_timestamp(part: &Value<'_>) -> bool
    ensures { result ≡ is_formed wrappers.Timestamp (value_view part.now) }
{
    match pair(part, "t", "i") {
        Some((t, i)) => is_whole(number_of(t)) && is_whole(number_of(i)),
        None => false,
    }
}

fn is_formed_regex(part: &Value<'_>) -> bool
    ensures { result ≡ is_formed wrappers.RegularExpression (value_view part.now) }
{
    match pair(part, "pattern", "options") {
        Some((pattern, options)) => pattern.as_str().is_some() && options.as_str().is_some(),
        None => false,
    }
}

fn is_whole(text: Option<&str>) -> bool
    ensures { result ≡ is_whole (option_map (λ s. s.now) text.entry) }
{
    match text {
        Some(text) => is_whole_number(text.as_bytes()),
        None => false,
    }
}
