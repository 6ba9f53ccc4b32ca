//! The bounds that a filter gives to an index.

ghost use Rattle.std.specs.Prelude.{◌≡◌, ◌==◌, IfOk, OnOk, None, Some, false, if◌then◌else◌, map, option_map, true};
ghost use Rattle.bd_value.specs.View.{tree_of};
ghost use Rattle.bd_value.specs.declared.node.Kind.TheVariants as kind;
ghost use Rattle.bd_path.specs.Path.{component_names};
ghost use Rattle.bd_path.specs.PathNames.{names_of};
ghost use Rattle.bd_query_filter.specs.Filter as filters;
ghost use Rattle.bd_query_filter.specs.Filter.{filter_tree, filters_from, operator_tree, operators_from};
ghost use Rattle.bd_query_filter.specs.FilterMatch.{is_array, is_related};
ghost use Rattle.bd_index_bounds.specs.Bounds.{all_bounds, all_element_bounds, bounds, bounds_at, bounds_here, conjunction, element_bounds, is_listed};
ghost use Rattle.bd_index_bounds.specs.Bounds.{keys_of_types, operator_bounds, rest_after, some_bounds};
ghost use Rattle.bd_index_bounds.specs.BoundsView.{bounds_view};
ghost use Rattle.bd_index_bounds.specs.inside.BoundsView.{parts_bounds};

use crate::bounds::Bounds;
use crate::range::{
    bounds_of_all, bounds_of_equal, equal_bounds, equal_to, null, of_class, ranges_of_all,
    ranges_of_equal, ranges_of_kinds, related, undefined,
};
use bd_path::{Component, Path};
use bd_query_filter::{Filter, Operator, Relation};
use bd_value::{Class, Kind, NoMemory, Value};
use std::alloc::Global;

impl<'a> Bounds<'a> {
    /// The bounds of a filter for an index on a path; None if it has none, so that each key may be that of a match. In a
    /// multikey index some document has several keys. It fails only if memory runs out.
    ///
    /// A document that matches has a key inside: see `bounds_lose_no_match`.
    pub fn of(
        alloc: Global,
        filter: &'a Filter,
        path: &Path,
        multikey: bool,
    ) -> Result<Option<Bounds<'a>>, NoMemory>
        ensures { IfOk result (λ b.
            bounds_view b ≡ bounds (filter_tree filter.now) (names_of path.now) multikey) }
    {
        let path = path.components();
        filter_bounds(alloc, filter, &Index { path, multikey })
    }
}

/// The bounds of a part of a filter; None if it has none.
type Found<'a> = Result<Option<Bounds<'a>>, NoMemory>;

/// What is known of an index: the rest of its path, and whether some document has several keys.
#[derive(Clone, Copy)]
pub(crate) struct Index<'p> {
    path: &'p [Component],
    multikey: bool,
}

#[cycle(bounding)]
fn filter_bounds<'a>(alloc: Global, filter: &'a Filter, index: &Index) -> Found<'a>
    ensures { IfOk result (λ b. bounds_view b
        ≡ bounds (filter_tree filter.now) (component_names index.now.path.now) index.now.multikey) }
{
    match filter {
        Filter::And(filters) => all_bounds(alloc, filters, index),
        Filter::Or(filters) => some_bounds(alloc, filters, index),
        Filter::Nor(_) => Ok(None),
        Filter::Field { path, operators } => match rest_after(path.components(), index.path) {
            Some(path) => {
                let multikey = index.multikey;
                operator_bounds(alloc, operators, &Index { path, multikey })
            }
            None => Ok(None),
        },
    }
}

/// The bounds of filters that must all match.
#[cycle(bounding)]
fn all_bounds<'a>(alloc: Global, filters: &'a [Filter], index: &Index) -> Found<'a>
    ensures { IfOk result
        (λ b. bounds_view b ≡ all_bounds (filters_from (map filter_tree filters.now))
        (component_names index.now.path.now) index.now.multikey) }
{
    let mut parts = Vec::new(alloc);
    for filter in filters {
        let next = filter_bounds(alloc, filter, index)?;
        narrow(&mut parts, next, index.multikey)?;
    }
    Ok(conjoined(parts))
}

/// The bounds of filters of which at least one matches.
#[cycle(bounding)]
fn some_bounds<'a>(alloc: Global, filters: &'a [Filter], index: &Index) -> Found<'a>
    ensures { IfOk result
        (λ b. bounds_view b ≡ some_bounds (filters_from (map filter_tree filters.now))
        (component_names index.now.path.now) index.now.multikey) }
{
    let mut parts = Vec::new(alloc);
    for filter in filters {
        match filter_bounds(alloc, filter, index)? {
            Some(bounds) => parts.push(bounds)?,
            None => return Ok(None),
        }
    }
    Ok(Some(Bounds::Or(parts)))
}

/// The bounds of operators at a path, by the rest of the index's path after it.
#[cycle(bounding)]
fn operator_bounds<'a>(alloc: Global, operators: &'a [Operator], index: &Index) -> Found<'a>
    ensures { IfOk result
        (λ b. bounds_view b ≡ operator_bounds (operators_from (map operator_tree operators.now))
        (Some (component_names index.now.path.now)) index.now.multikey) }
{
    let mut parts = Vec::new(alloc);
    for operator in operators {
        let next = bounds_at(alloc, operator, index)?;
        narrow(&mut parts, next, index.multikey)?;
    }
    Ok(conjoined(parts))
}

/// The bounds of an operator, by the rest of the index's path after the operator's path.
#[cycle(bounding)]
fn bounds_at<'a>(alloc: Global, operator: &'a Operator, index: &Index) -> Found<'a>
    ensures { IfOk result
        (λ b. bounds_view b ≡ bounds_at (operator_tree operator.now)
        (Some (component_names index.now.path.now)) index.now.multikey) }
{
    if index.path.is_empty() {
        return bounds_here(alloc, operator, index.multikey);
    }
    match operator {
        Operator::ElemMatchDocument(filters) => all_bounds(alloc, filters, index),
        _ => Ok(None),
    }
}

/// The rest of a path after a prefix; None if it does not begin with this prefix.
fn rest_after<'p>(start: &[Component], path: &'p [Component]) -> Option<&'p [Component]>
    ensures { option_map (λ path. component_names path.now) result
        ≡ rest_after (component_names start.now) (component_names path.now) }
{
    let mut remaining = path;
    for component in start {
        let (first, rest) = remaining.split_first()?;
        if component.name != first.name {
            return None;
        }
        remaining = rest;
    }
    Some(remaining)
}

/// Adds one more part to a conjunction, in the filter's order. In a multikey index only the first part counts: a document may
/// have one key in the first and another key in the second. It fails only if memory runs out.
fn narrow<'a>(
    parts: &mut Vec<Bounds<'a>>,
    next: Option<Bounds<'a>>,
    multikey: bool,
) -> Result<(), NoMemory>
    ensures { OnOk result (parts_bounds parts.new.items
        ≡ conjunction multikey (parts_bounds parts.old.items) (bounds_view next.entry)) }
{
    let Some(bounds) = next else {
        return Ok(());
    };
    if multikey && !parts.is_empty() {
        return Ok(());
    }
    parts.push(bounds)?;
    Ok(())
}

/// The conjunction of parts; unbounded if there are none.
fn conjoined(parts: Vec<Bounds<'_>>) -> Option<Bounds<'_>>
    ensures { bounds_view result ≡ parts_bounds parts.entry.items }
{
    if parts.is_empty() {
        return None;
    }
    Some(Bounds::And(parts))
}

/// Bounds of an operand that orders values; unbounded if it is an array, since an array in a document is no key.
fn unless_array(relation: Relation, operand: &Value) -> Option<Bounds<'_>>
    ensures { bounds_view result ≡ (if is_array
        (tree_of operand.now) then None else Some (is_related relation (tree_of operand.now))) }
{
    match operand {
        Value::Array(_) => None,
        _ => Some(related(relation, operand)),
    }
}

/// `$type`: unbounded if arrays are listed, since an array in a document is no key. It fails only if memory runs out.
fn type_bounds<'a>(alloc: Global, kinds: &[Kind]) -> Found<'a>
    ensures { IfOk result (λ b. bounds_view b
        ≡ (if is_listed kind.Array kinds.now then None else Some (keys_of_types kinds.now))) }
{
    if lists_arrays(kinds) {
        return Ok(None);
    }
    Ok(Some(Bounds::Or(ranges_of_kinds(alloc, kinds)?)))
}

fn lists_arrays(kinds: &[Kind]) -> bool
    ensures { result ≡ is_listed kind.Array kinds.now }
{
    kinds.iter().any(|kind| *kind == Kind::Array)
}

/// The bounds of an operator for an index on its path; None if there are none. It fails only if memory runs out.
fn bounds_here<'a>(alloc: Global, operator: &'a Operator, multikey: bool) -> Found<'a>
    ensures { IfOk result (λ b. bounds_view b ≡ bounds_here (operator_tree operator.now) multikey) }
{
    match operator {
        Operator::Equal(operand) => Ok(Some(equal_bounds(alloc, operand)?)),
        Operator::Greater(operand) => Ok(unless_array(Relation::Above, operand)),
        Operator::GreaterOrEqual(operand) => Ok(unless_array(Relation::AtLeast, operand)),
        Operator::Less(operand) => Ok(unless_array(Relation::Below, operand)),
        Operator::LessOrEqual(operand) => Ok(unless_array(Relation::AtMost, operand)),
        Operator::In(members) => Ok(Some(Bounds::Or(bounds_of_equal(alloc, members.as_slice())?))),
        Operator::All(members) => Ok(Some(bounds_of_all(alloc, members, multikey)?)),
        Operator::Type(kinds) => type_bounds(alloc, kinds),
        Operator::Size(0) => Ok(Some(undefined())),
        Operator::Exists(false) => Ok(Some(null())),
        Operator::ElemMatch(operators) => all_element_bounds(alloc, operators),
        Operator::ElemMatchDocument(_) => Ok(Some(of_class(Class::Doc))),
        Operator::Size(_)
        | Operator::Exists(true)
        | Operator::NotEqual(_)
        | Operator::NotIn(_)
        | Operator::Not(_) => Ok(None),
    }
}

/// The bounds of operators that all must match one element, which is a key. It fails only if memory runs out.
fn all_element_bounds<'a>(alloc: Global, operators: &'a [Operator]) -> Found<'a>
    ensures { IfOk result (λ b.
        bounds_view b ≡ all_element_bounds (operators_from (map operator_tree operators.now))) }
{
    let mut parts = Vec::new(alloc);
    for operator in operators {
        narrow(&mut parts, element_bounds(alloc, operator)?, false)?;
    }
    Ok(conjoined(parts))
}

/// The bounds of an operator for one element, which is a key; None if there are none. It fails only if memory runs out.
fn element_bounds<'a>(alloc: Global, operator: &'a Operator) -> Found<'a>
    ensures { IfOk result (λ b. bounds_view b ≡ element_bounds (operator_tree operator.now)) }
{
    match operator {
        Operator::Equal(operand) => Ok(Some(equal_to(operand))),
        Operator::Greater(operand) => Ok(Some(related(Relation::Above, operand))),
        Operator::GreaterOrEqual(operand) => Ok(Some(related(Relation::AtLeast, operand))),
        Operator::Less(operand) => Ok(Some(related(Relation::Below, operand))),
        Operator::LessOrEqual(operand) => Ok(Some(related(Relation::AtMost, operand))),
        Operator::In(members) => Ok(Some(Bounds::Or(ranges_of_equal(alloc, members.as_slice())?))),
        Operator::All(members) => Ok(Some(ranges_of_all(alloc, members)?)),
        Operator::Type(kinds) => Ok(Some(Bounds::Or(ranges_of_kinds(alloc, kinds)?))),
        _ => Ok(None),
    }
}
