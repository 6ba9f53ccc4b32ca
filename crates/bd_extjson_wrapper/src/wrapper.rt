//! The objects that mean values of other kinds: which, by their first names, and what is in them.
ghost use Rattle.std.specs.Prelude.{◌≡◌, ◌≢◌, Some, option_map, option_and_then, string_bytes, codes, Err};
ghost use Rattle.std.specs.Result.{result_ok};
ghost use Rattle.hex.specs.Hex.{decode_sized, hex_digit_value};
ghost use Rattle.json.specs.Find.{as_number, as_object};
ghost use Rattle.json.specs.Value.{value_view, members_view};
ghost use Rattle.bd_value.specs.Tree.{leaf};
ghost use Rattle.bd_value.specs.View.{tree_of};
ghost use Rattle.bd_extjson_wrapper.specs.Wrapper.{wrapper_of, is_code_name, is_scope_name, only as only_in, pair as pair_in, id_of as id_in};
ghost use Rattle.bd_extjson_wrapper.specs.Wrapper.{data_in, subtype_in, word_in, name_in, long_in, one, single, Gives, TakesMemory};
ghost use Rattle.bd_extjson_wrapper.specs.declared.wrapper.Trouble.TheVariants.{Memory, Refused};
ghost use Rattle.bd_extjson_wrapper.specs.declared.wrapper.Wrapper.TheVariants as kinds;

use crate::whole_number::{whole, whole_of_32};
use base64::DecodeAllocError;
use base64::engine::general_purpose::STANDARD;
use bd_value::{Value, has_zero};
use hex::FromHex;
use std::alloc::{AllocError, AllocFailed, Global};
use thiserror::Error;

/// What an object means by its first name: Extended JSON v2, conversion table.
#[derive(Clone, Copy, Debug, Drop, PartialEq, Eq)]
pub enum Wrapper {
    NumberInt,
    NumberLong,
    NumberDouble,
    NumberDecimal,
    Oid,
    Symbol,
    Binary,
    Uuid,
    Code,
    Scope,
    Timestamp,
    RegularExpression,
    DbPointer,
    Date,
    MinKey,
    MaxKey,
    Undefined,
}

impl Wrapper {
    /// The wrapper of a name.
    #[tactic(auto, unfolding(crate::specs::Wrapper::wrapper_of))]
    pub fn from_name(name: &str) -> Option<Wrapper>
        ensures { result ≡ wrapper_of name.now }
    {
        match name {
            "$numberInt" => Some(Wrapper::NumberInt),
            "$numberLong" => Some(Wrapper::NumberLong),
            "$numberDouble" => Some(Wrapper::NumberDouble),
            "$numberDecimal" => Some(Wrapper::NumberDecimal),
            "$oid" => Some(Wrapper::Oid),
            "$symbol" => Some(Wrapper::Symbol),
            "$binary" => Some(Wrapper::Binary),
            "$uuid" => Some(Wrapper::Uuid),
            "$code" => Some(Wrapper::Code),
            "$scope" => Some(Wrapper::Scope),
            "$timestamp" => Some(Wrapper::Timestamp),
            "$regularExpression" => Some(Wrapper::RegularExpression),
            "$dbPointer" => Some(Wrapper::DbPointer),
            "$date" => Some(Wrapper::Date),
            "$minKey" => Some(Wrapper::MinKey),
            "$maxKey" => Some(Wrapper::MaxKey),
            "$undefined" => Some(Wrapper::Undefined),
            _ => None,
        }
    }

    /// Whether it is `$code`, which may have `$scope` beside it.
    pub fn is_code(self) -> bool
        ensures { result ≡ is_code_name (Some self) }
    {
        matches!(self, Wrapper::Code)
    }

    /// Whether it is `$scope`.
    pub fn is_scope(self) -> bool
        ensures { result ≡ is_scope_name (Some self) }
    {
        matches!(self, Wrapper::Scope)
    }
}

/// Whether a name is `$code`.
pub fn names_code(name: &str) -> bool
    ensures { result ≡ is_code_name (wrapper_of name.now) }
{
    matches!(Wrapper::from_name(name), Some(Wrapper::Code))
}

/// Whether a name is `$scope`.
pub fn names_scope(name: &str) -> bool
    ensures { result ≡ is_scope_name (wrapper_of name.now) }
{
    matches!(Wrapper::from_name(name), Some(Wrapper::Scope))
}

/// The value of an object of one name, by the value after the name. Only a value with a text or data takes memory.
pub fn unwrap_single(
    alloc: Global,
    wrapper: Wrapper,
    part: &json::Value<'_>,
) -> Result<Value, Trouble>
    ensures value { Gives tree_of result (option_map leaf (single wrapper (value_view part.now))) }
    ensures memory { result ≡ Err Memory → TakesMemory wrapper }
{
    match wrapper {
        Wrapper::Symbol => Ok(Value::Symbol(text_in(alloc, part.as_str())?)),
        Wrapper::Code => Ok(Value::Code(text_in(alloc, part.as_str())?)),
        Wrapper::Binary => binary_of(alloc, part),
        Wrapper::RegularExpression => regex_of(alloc, part),
        Wrapper::DbPointer => pointer_of(alloc, part),
        _ => fixed_of(wrapper, part).ok_or(Trouble::Refused),
    }
}

/// The same for the kinds with no text and no bytes but an id: these take no memory.
fn fixed_of(wrapper: Wrapper, part: &json::Value<'_>) -> Option<Value>
    requires { (wrapper ≢ kinds.Symbol) × (wrapper ≢ kinds.Code) × (wrapper ≢ kinds.Binary)
        × (wrapper ≢ kinds.RegularExpression) × (wrapper ≢ kinds.DbPointer) }
    ensures { option_map tree_of result ≡ option_map leaf (single wrapper (value_view part.now)) }
{
    match wrapper {
        Wrapper::NumberInt => Some(Value::Int32(whole_of_32(part.as_str()?)?)),
        Wrapper::NumberLong => Some(Value::Int64(whole(part.as_str()?)?)),
        Wrapper::Oid => Some(Value::ObjectId(id_of(part)?)),
        Wrapper::Timestamp => {
            let (seconds, increment) = pair(part, "t", "i")?;
            Some(Value::Timestamp {
                seconds: word_of(seconds)?,
                increment: word_of(increment)?,
            })
        }
        Wrapper::Date => Some(Value::Date(milliseconds_of(part)?)),
        Wrapper::MinKey => is_one(part).then_some(Value::MinKey),
        Wrapper::MaxKey => is_one(part).then_some(Value::MaxKey),
        Wrapper::Undefined => (part.as_bool() == Some(true)).then_some(Value::Undefined),
        Wrapper::NumberDouble | Wrapper::NumberDecimal | Wrapper::Uuid | Wrapper::Scope => None,
        Wrapper::Symbol
        | Wrapper::Code
        | Wrapper::Binary
        | Wrapper::RegularExpression
        | Wrapper::DbPointer => unreachable!(),
    }
}

fn binary_of(alloc: Global, part: &json::Value<'_>) -> Result<Value, Trouble>
    ensures { Gives tree_of result (option_map leaf (single kinds.Binary (value_view part.now))) }
{
    let (data, subtype) = pair(part, "base64", "subType").ok_or(Trouble::Refused)?;
    let payload = data_of(alloc, data)?;
    let subtype = subtype_of(subtype).ok_or(Trouble::Refused)?;
    Ok(Value::Binary { subtype, payload })
}

fn regex_of(alloc: Global, part: &json::Value<'_>) -> Result<Value, Trouble>
    ensures { Gives tree_of result
        (option_map leaf (single kinds.RegularExpression (value_view part.now))) }
{
    let (pattern, options) = pair(part, "pattern", "options").ok_or(Trouble::Refused)?;
    let pattern = text_in(alloc, name_of(pattern))?;
    let options = text_in(alloc, name_of(options))?;
    Ok(Value::Regex { pattern, options })
}

fn pointer_of(alloc: Global, part: &json::Value<'_>) -> Result<Value, Trouble>
    ensures { Gives tree_of result
        (option_map leaf (single kinds.DbPointer (value_view part.now))) }
{
    let (space, id) = pair(part, "$ref", "$id").ok_or(Trouble::Refused)?;
    let space = text_in(alloc, space.as_str())?;
    let id = only(id, "$oid").ok_or(Trouble::Refused)?;
    let id = id_of(id).ok_or(Trouble::Refused)?;
    Ok(Value::DbPointer { space, id })
}

fn milliseconds_of(part: &json::Value<'_>) -> Option<i64>
    ensures { result
        ≡ option_and_then long_in (only_in (codes "$numberLong") (value_view part.now)) }
{
    whole(only(part, "$numberLong")?.as_str()?)
}

/// Whether a part is the bare number 1.
fn is_one(part: &json::Value<'_>) -> bool
    ensures { result ≡ one (value_view part.now) }
{
    match number_of(part) {
        None => false,
        Some(text) => whole(text) == Some(1),
    }
}

fn text_in(alloc: Global, text: Option<&str>) -> Result<String, Trouble>
    ensures { Gives string_bytes result (option_map (λ s. s.now) text.entry) }
{
    let text = text.ok_or(Trouble::Refused)?;
    Ok(String::from_str(alloc, text)?)
}

/// The bytes of base64, standard and padded.
fn data_of(alloc: Global, part: &json::Value<'_>) -> Result<Vec<u8>, Trouble>
    ensures { Gives (λ v. v.items) result (data_in (value_view part.now)) }
{
    let text = part.as_str().ok_or(Trouble::Refused)?;
    match STANDARD.decode(alloc, text.as_bytes()) {
        Ok(bytes) => Ok(bytes),
        Err(DecodeAllocError::OutOfMemory) => Err(Trouble::Memory),
        Err(DecodeAllocError::DecodeError(_)) => Err(Trouble::Refused),
    }
}

/// The value of an object whose only name this is.
#[tactic(auto, unfolding(crate::specs::Wrapper::only))]
pub fn only<'v, 'a>(part: &'v json::Value<'a>, name: &str) -> Option<&'v json::Value<'a>>
    ensures { option_map (λ v. value_view v.now) result ≡ only_in name.now (value_view part.now) }
{
    let members = members_of(part)?;
    if members.len() != 1 {
        return None;
    }
    let (key, value) = &members[0];
    if *key == name { Some(value) } else { None }
}

/// The values of an object of exactly these two names, in either order.
#[tactic(auto, unfolding(crate::specs::Wrapper::pair))]
pub fn pair<'v, 'a>(
    part: &'v json::Value<'a>,
    a: &str,
    b: &str,
) -> Option<(&'v json::Value<'a>, &'v json::Value<'a>)>
    ensures { option_map (λ p. (value_view p.0.now, value_view p.1.now)) result
        ≡ pair_in a.now b.now (value_view part.now) }
{
    let members = members_of(part)?;
    if members.len() != 2 {
        return None;
    }
    let (first, second) = (&members[0], &members[1]);
    if first.0 == a && second.0 == b {
        Some((&first.1, &second.1))
    } else if first.0 == b && second.0 == a {
        Some((&second.1, &first.1))
    } else {
        None
    }
}

/// The names and the values of an object.
fn members_of<'v, 'a>(part: &'v json::Value<'a>) -> Option<&'v [(&'a str, json::Value<'a>)]>
    ensures { option_map (λ ms. members_view ms.now) result ≡ as_object (value_view part.now) }
{
    match part {
        json::Value::Object(members) => Some(members.as_slice()),
        _ => None,
    }
}

/// The text of a bare number.
pub fn number_of<'a>(part: &json::Value<'a>) -> Option<&'a str>
    ensures { option_map (λ s. s.now) result ≡ as_number (value_view part.now) }
{
    part.as_number()
}

/// A bare whole number from 0 to 4,294,967,295.
fn word_of(part: &json::Value<'_>) -> Option<u32>
    ensures { result ≡ word_in (value_view part.now) }
{
    u32::try_from(whole(number_of(part)?)?).ok()
}

/// The 12 bytes of an id, from its 24 hexadecimal digits.
pub fn id_of_text(text: &str) -> Option<[u8; 12]>
    ensures { result ≡ result_ok (decode_sized text.now 12) }
{
    <[u8; 12] as FromHex>::from_hex(text).ok()
}

/// The 12 bytes of an id.
fn id_of(part: &json::Value<'_>) -> Option<[u8; 12]>
    ensures { result ≡ id_in (value_view part.now) }
{
    id_of_text(part.as_str()?)
}

/// A text without a zero.
fn name_of<'a>(part: &'a json::Value<'_>) -> Option<&'a str>
    ensures { option_map (λ s. s.now) result ≡ name_in (value_view part.now) }
{
    let text = part.as_str()?;
    if has_zero(text) { None } else { Some(text) }
}

/// A subtype, in one or two hexadecimal digits.
fn subtype_of(part: &json::Value<'_>) -> Option<u8>
    ensures { result ≡ subtype_in (value_view part.now) }
{
    match part.as_str()?.as_bytes() {
        [one] => digit(*one),
        [high, low] => Some(digit(*high)? * 16 + digit(*low)?),
        _ => None,
    }
}

/// The value of a hexadecimal digit of either case.
fn digit(byte: u8) -> Option<u8>
    ensures { result ≡ hex_digit_value byte }
{
    match byte {
        b'0'..=b'9' => Some(byte - b'0'),
        b'a'..=b'f' => Some(byte - b'a' + 10),
        b'A'..=b'F' => Some(byte - b'A' + 10),
        _ => None,
    }
}

/// Why a part of a text was not read.
#[derive(Clone, Copy, Debug, Drop, PartialEq, Eq, Error)]
pub enum Trouble {
    /// Memory ran out.
    #[error("no memory")]
    Memory,
    /// It is not JSON, or it means no value.
    #[error("not Extended JSON")]
    Refused,
}

impl From<AllocError> for Trouble {
    ghost from_gives = { λ _ e. e ≡ Memory };

    fn from(_e: AllocError) -> Trouble {
        Trouble::Memory
    }
}

impl<T: Drop> From<AllocFailed<T>> for Trouble {
    ghost from_gives = { λ _ e. e ≡ Memory };

    fn from(_e: AllocFailed<T>) -> Trouble {
        Trouble::Memory
    }
}

impl From<json::Invalid> for Trouble {
    ghost from_gives = { λ _ e. e ≡ Refused };

    fn from(_e: json::Invalid) -> Trouble {
        Trouble::Refused
    }
}
