//! Wrappers whose values have no text and no data: read a token at a time, without a tree. This takes no memory.
ghost use Rattle.std.specs.Prelude.{◌≡◌, ◌<◌, ◌≤◌, ◌-◌, ◌+◌, ◌∷◌, ℕ, List, length, Option, Some, None, IfSome, IfNone, OnSome, option_map, false};
ghost use Rattle.std.specs.Bool.{MatchBool};
ghost use Rattle.json.specs.Find.{as_object};
ghost use Rattle.json.specs.Json as kit;
ghost use Rattle.json.specs.Json.{Json, value, members};
ghost use Rattle.json.specs.Token.{Token as JsonToken};
ghost use Rattle.json.specs.Value.{value_view};
ghost use Rattle.bd_value.specs.Tree.{Tree, leaf};
ghost use Rattle.bd_value.specs.View.{tree_of};
ghost use Rattle.bd_extjson_wrapper.specs.Wrapper.{wrapper_of, is_scope_name, single, through, after_key, word_in, TakesMemory};
ghost use Rattle.bd_extjson_wrapper.specs.declared.wrapper.Wrapper.TheVariants as kinds;
ghost use Rattle.bd_extjson.specs.Read.{wrap_object};
ghost use Rattle.bd_extjson.specs.inside.Fixed.{bare};

use crate::read::end_object;
use bd_extjson_wrapper::{Wrapper, number_of, unwrap_single, whole};
use bd_value::Value;
use json::{Reader, Token};
use std::alloc::Global;

/// A name in an object, and its value.
type Member<'a> = (&'a str, json::Value<'a>);

/// Whether the value of a wrapper has a text or data.
pub(crate) fn takes_memory(wrapper: Wrapper) -> bool
    ensures { MatchBool result (TakesMemory wrapper) (TakesMemory wrapper → ⊥) }
{
    matches!(
        wrapper,
        Wrapper::Symbol
            | Wrapper::Code
            | Wrapper::Binary
            | Wrapper::RegularExpression
            | Wrapper::DbPointer
    )
}

/// Reads what follows the name of a wrapper that takes no memory: the value that the object means, and the brace that ends
/// the object. None if it means no value.
pub(crate) fn read_fixed(
    alloc: Global,
    reader: &mut Reader<'_>,
    wrapper: Wrapper,
    depth: usize,
) -> Option<Value>
    requires fixed { TakesMemory wrapper → ⊥ }
    requires no_scope { is_scope_name (Some wrapper) ≡ false }
    ensures gives { (name : List ℕ) (depth_left : ℕ) → wrapper_of name ≡ Some wrapper →
        option_map (λ v. (tree_of v, reader.new)) result ≡ through
        (wrap_object depth_left) (after_key depth (length reader.old) (Some name) reader.old) }
    ensures shorter { OnSome result (length reader.new < length reader.old) }
{
    let value = read_inside(alloc, reader, wrapper, depth)?;
    end_object(reader).ok()?;
    Some(value)
}

/// The value of such a wrapper, by the JSON value inside it.
fn read_inside(
    alloc: Global,
    reader: &mut Reader<'_>,
    wrapper: Wrapper,
    depth: usize,
) -> Option<Value>
    requires { TakesMemory wrapper → ⊥ }
    ensures gives { option_map (λ v. (tree_of v, reader.new)) result
        ≡ through (λ j. option_map leaf (single wrapper j)) (value depth reader.old) }
    ensures shorter { OnSome result (length reader.new < length reader.old) }
{
    match wrapper {
        Wrapper::Timestamp => read_timestamp(reader, depth),
        Wrapper::Date => read_date(reader, depth),
        _ => unwrap_bare(alloc, wrapper, read_bare(reader)?),
    }
}

/// The value of such a wrapper, by a JSON value of one token.
fn unwrap_bare(alloc: Global, wrapper: Wrapper, part: json::Value<'_>) -> Option<Value>
    requires { TakesMemory wrapper → ⊥ }
    ensures { option_map tree_of result ≡ option_map leaf (single wrapper (value_view part.entry)) }
{
    unwrap_single(alloc, wrapper, &part).ok()
}

/// The value of `$timestamp`, by the object inside it.
fn read_timestamp(reader: &mut Reader<'_>, depth: usize) -> Option<Value>
    ensures gives { option_map (λ v. (tree_of v, reader.new)) result
        ≡ through (λ j. option_map leaf (single kinds.Timestamp j)) (value depth reader.old) }
    ensures shorter { OnSome result (length reader.new < length reader.old) }
{
    begin_object(reader, depth)?;
    let first = read_member(reader)?;
    let second = read_member(reader)?;
    end_object(reader).ok()?;
    timestamp_of(first, second)
}

/// The value of `$date`, by the object inside it.
fn read_date(reader: &mut Reader<'_>, depth: usize) -> Option<Value>
    ensures gives { option_map (λ v. (tree_of v, reader.new)) result
        ≡ through (λ j. option_map leaf (single kinds.Date j)) (value depth reader.old) }
    ensures shorter { OnSome result (length reader.new < length reader.old) }
{
    begin_object(reader, depth)?;
    let member = read_member(reader)?;
    end_object(reader).ok()?;
    date_of(member)
}

/// The value of `$timestamp`, by the two members of its object.
#[tactic(auto, unfolding(bd_extjson_wrapper::specs::Wrapper::pair))]
fn timestamp_of<'a>(first: Member<'a>, second: Member<'a>) -> Option<Value>
    ensures { option_map tree_of result ≡ option_map leaf (single kinds.Timestamp (kit.object
        (kit.member first.entry.0.now (value_view first.entry.1)
        (kit.member second.entry.0.now (value_view second.entry.1) kit.no_members)))) }
{
    let (a, b) = (word_of(&first.1)?, word_of(&second.1)?);
    let (seconds, increment) = if first.0 == "t" && second.0 == "i" {
        (a, b)
    } else if first.0 == "i" && second.0 == "t" {
        (b, a)
    } else {
        return None;
    };
    Some(Value::Timestamp { seconds, increment })
}

/// A bare whole number from 0 to 4,294,967,295.
fn word_of(part: &json::Value<'_>) -> Option<u32>
    ensures { result ≡ word_in (value_view part.now) }
{
    u32::try_from(whole(number_of(part)?)?).ok()
}

/// The value of `$date`, by the only member of its object.
#[tactic(auto, unfolding(bd_extjson_wrapper::specs::Wrapper::only))]
fn date_of(member: Member<'_>) -> Option<Value>
    ensures { option_map tree_of result ≡ option_map leaf (single kinds.Date (kit.object
        (kit.member member.entry.0.now (value_view member.entry.1) kit.no_members))) }
{
    if member.0 != "$numberLong" {
        return None;
    }
    Some(Value::Date(whole(member.1.as_str()?)?))
}

/// The brace that begins an object.
#[tactic(auto, using(crate::proofs::FixedLemmas::object_steps))]
fn begin_object(reader: &mut Reader<'_>, depth: usize) -> Option<()>
    ensures began { OnSome result
        ((reader.old ≡ JsonToken.begin_object ∷ reader.new) × (0 < depth)) }
    ensures none { IfNone result (through as_object (value depth reader.old) ≡ None) }
{
    match reader.next()? {
        Token::BeginObject => if depth == 0 { None } else { Some(()) },
        Token::String(_)
        | Token::Number(_)
        | Token::Bool(_)
        | Token::Null
        | Token::BeginArray
        | Token::EndArray
        | Token::EndObject
        | Token::Key(_)
        | Token::Bad => None,
    }
}

/// The next name of an object, and its value if that is a string, a number, `true` or `false`.
fn read_member<'a>(reader: &mut Reader<'a>) -> Option<Member<'a>>
    ensures read { IfSome result (λ m. (f : kit.Members → Option Tree) (depth n : ℕ) →
        length reader.old ≤ n → through f (members (value depth) n reader.old) ≡ through
        (λ ms. f (kit.member m.0.now (value_view m.1) ms))
        (members (value depth) (n - 1) reader.new)) }
    ensures none { IfNone result ((f : kit.Members → Option Tree) (depth n : ℕ) →
        length reader.old ≤ n → f kit.no_members ≡ None →
        ((k : List ℕ) (j : Json) (ms : kit.Members) → bare j ≡ None → f (kit.member k j ms) ≡ None)
        → through f (members (value depth) n reader.old) ≡ None) }
    ensures shorter { OnSome result (length reader.new + 2 ≤ length reader.old) }
{
    let name = reader.next_key().ok()??;
    Some((name, read_bare(reader)?))
}

/// The next JSON value, if it is a string, a number, `true` or `false`.
#[tactic(auto, using(crate::proofs::FixedLemmas::bare_steps))]
fn read_bare<'a>(reader: &mut Reader<'a>) -> Option<json::Value<'a>>
    ensures read { IfSome result (λ v. (depth : ℕ) →
        value depth reader.old ≡ Some (value_view v, reader.new)) }
    ensures none { IfNone result ((depth : ℕ) → through bare (value depth reader.old) ≡ None) }
    ensures shorter { OnSome result (length reader.new < length reader.old) }
{
    match reader.next()? {
        Token::String(text) => Some(json::Value::String(text)),
        Token::Number(text) => Some(json::Value::Number(text)),
        Token::Bool(b) => Some(json::Value::Bool(b)),
        Token::Null
        | Token::BeginArray
        | Token::BeginObject
        | Token::EndArray
        | Token::EndObject
        | Token::Key(_)
        | Token::Bad => None,
    }
}
