//! Ranges of keys around a value or a class, and those of several values.

ghost use Rattle.std.specs.Prelude.{◌≡◌, IfOk, false, get_or, map, true};
ghost use Rattle.bd_value.specs.Order.{class_of_kind};
ghost use Rattle.bd_value.specs.Tree as trees;
ghost use Rattle.bd_value.specs.Tree.{leaf};
ghost use Rattle.bd_value.specs.View.{tree_of};
ghost use Rattle.bd_query_filter.specs.FilterMatch.{is_related};
ghost use Rattle.bd_index_bounds.specs.Bounds.{is_of_class, keys_equal_to, keys_of_each, keys_of_equal};
ghost use Rattle.bd_index_bounds.specs.BoundsView.{keys_between, keys_within};

use crate::bounds::{Bounds, Cutoff, Edge};
use bd_query_filter::Relation;
use bd_value::{Class, Kind, NoMemory, Value, class, class_of_kind};
use std::alloc::Global;

/// The keys that equal a value.
pub(crate) fn equal_to(value: &Value) -> Bounds<'_>
    ensures { keys_within result ≡ keys_equal_to (tree_of value.now) }
{
    let edge = Edge::Value(value);
    between(before(edge), after(edge))
}

/// The keys of a class.
pub(crate) fn of_class<'a>(class: Class) -> Bounds<'a>
    ensures { keys_within result ≡ is_of_class class }
{
    let edge = Edge::Class(class);
    between(before(edge), after(edge))
}

/// The keys of a value's class that have this relation to it.
pub(crate) fn related(relation: Relation, value: &Value) -> Bounds<'_>
    ensures { keys_within result ≡ is_related relation (tree_of value.now) }
{
    let edge = Edge::Value(value);
    let class = Edge::Class(class(value));
    match relation {
        Relation::Above => between(after(edge), after(class)),
        Relation::AtLeast => between(before(edge), after(class)),
        Relation::Below => between(before(class), before(edge)),
        Relation::AtMost => between(before(class), after(edge)),
    }
}

/// Undefined, the one key of its class.
#[tactic(auto, using(crate::proofs::FilterBoundsLemmas::undefined_alone))]
pub(crate) fn undefined<'a>() -> Bounds<'a>
    ensures { keys_within result ≡ keys_equal_to (leaf trees.undefined) }
{
    of_class(Class::Undefined)
}

/// Null, the one key of its class.
#[tactic(auto, using(crate::proofs::FilterBoundsLemmas::null_alone))]
pub(crate) fn null<'a>() -> Bounds<'a>
    ensures { keys_within result ≡ keys_equal_to (leaf trees.null) }
{
    of_class(Class::Null)
}

fn between<'a>(from: Cutoff<'a>, to: Cutoff<'a>) -> Bounds<'a>
    ensures { keys_within result ≡ keys_between from.entry to.entry }
{
    Bounds::Range { from, to }
}

fn before(edge: Edge<'_>) -> Cutoff<'_>
    ensures { result ≡ record { edge = edge.entry; after = false } }
{
    Cutoff { edge, after: false }
}

fn after(edge: Edge<'_>) -> Cutoff<'_>
    ensures { result ≡ record { edge = edge.entry; after = true } }
{
    Cutoff { edge, after: true }
}

/// The keys of a document that has a value equal to this one. It fails only if memory runs out.
///
/// The keys of an array are its elements, so an equal array is found by its first element, or by undefined if it is empty. It
/// may also be an element of an array, and is then itself a key.
pub(crate) fn equal_bounds<'a>(alloc: Global, value: &'a Value) -> Result<Bounds<'a>, NoMemory>
    ensures { IfOk result (λ b. keys_within b ≡ keys_of_equal (tree_of value.now)) }
{
    let Value::Array(elements) = value else {
        return Ok(equal_to(value));
    };
    let mut parts = Vec::new(alloc);
    parts.push(equal_to(value))?;
    parts.push(first_range(elements))?;
    Ok(Bounds::Or(parts))
}

/// The keys that equal the first element, or undefined if there is none.
fn first_range(elements: &[Value]) -> Bounds<'_>
    ensures { keys_within result
        ≡ keys_equal_to (get_or (map tree_of elements.now) 0 (leaf trees.undefined)) }
{
    match elements.first() {
        Some(first) => equal_to(first),
        None => undefined(),
    }
}

/// The keys of documents that have an equal value, for each value. It fails only if memory runs out.
pub(crate) fn bounds_of_equal<'a>(
    alloc: Global,
    values: &'a [Value],
) -> Result<Vec<Bounds<'a>>, NoMemory>
    ensures { IfOk result (λ v.
        map keys_within v.items ≡ map keys_of_equal (map tree_of values.now)) }
{
    let mut parts = Vec::new(alloc);
    for value in values {
        parts.push(equal_bounds(alloc, value)?)?;
    }
    Ok(parts)
}

/// The keys that equal a value, for each value. It fails only if memory runs out.
pub(crate) fn ranges_of_equal<'a>(
    alloc: Global,
    values: &'a [Value],
) -> Result<Vec<Bounds<'a>>, NoMemory>
    ensures { IfOk result (λ v.
        map keys_within v.items ≡ map keys_equal_to (map tree_of values.now)) }
{
    let mut parts = Vec::new(alloc);
    for value in values {
        parts.push(equal_to(value))?;
    }
    Ok(parts)
}

/// The keys of the class of a kind, for each kind. It fails only if memory runs out.
pub(crate) fn ranges_of_kinds<'a>(
    alloc: Global,
    kinds: &[Kind],
) -> Result<Vec<Bounds<'a>>, NoMemory>
    ensures { IfOk result (λ v.
        map keys_within v.items ≡ map (λ kind. is_of_class (class_of_kind kind)) kinds.now) }
{
    let mut parts = Vec::new(alloc);
    for kind in kinds {
        parts.push(of_class(class_of_kind(*kind)))?;
    }
    Ok(parts)
}

/// `$all`: in a multikey index only the first member bounds, otherwise each; no key if there are no members. It fails only if
/// memory runs out.
pub(crate) fn bounds_of_all<'a>(
    alloc: Global,
    members: &'a [Value],
    multikey: bool,
) -> Result<Bounds<'a>, NoMemory>
    ensures { IfOk result (λ b.
        keys_within b ≡ keys_of_each multikey (map keys_of_equal (map tree_of members.now))) }
{
    let Some(first) = members.first() else {
        return Ok(Bounds::Or(Vec::new(alloc)));
    };
    if multikey {
        return equal_bounds(alloc, first);
    }
    Ok(Bounds::And(bounds_of_equal(alloc, members)?))
}

/// `$all` of an element by itself: it equals each member; no key if there are no members. It fails only if memory runs out.
pub(crate) fn ranges_of_all<'a>(alloc: Global, members: &'a [Value]) -> Result<Bounds<'a>, NoMemory>
    ensures { IfOk result (λ b.
        keys_within b ≡ keys_of_each false (map keys_equal_to (map tree_of members.now))) }
{
    let ranges = ranges_of_equal(alloc, members)?;
    if ranges.is_empty() {
        return Ok(Bounds::Or(ranges));
    }
    Ok(Bounds::And(ranges))
}
