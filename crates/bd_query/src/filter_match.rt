//! Whether a document matches a filter.

ghost use Rattle.std.specs.Prelude.{◌≡◌, ◌<◌, ◌≤◌, false, drop, length, map};
ghost use Rattle.std.specs.List.{list_any};
ghost use Rattle.bd_value.specs.Limits.{most_names};
ghost use Rattle.bd_value.specs.View.{kind_of};
ghost use Rattle.bd_value.specs.Tree.{elements_in};
ghost use Rattle.bd_value.specs.declared.node.Kind.TheVariants as kinds;
ghost use Rattle.bd_path.specs.Path.{component_names};
ghost use Rattle.bd_path.specs.PathNames.{names_of};
ghost use Rattle.bd_path.specs.Reach.{document_collecting, ends, index_collecting, reach};
ghost use Rattle.bd_path.specs.PathWalk.{CollectsNone};
ghost use Rattle.bd_query.specs.inside.FilterMatch.{is_matching, matches_element};
ghost use Rattle.bd_query_filter.specs.Filter.{filters_from, operators_from, filter_tree, operator_tree};
ghost use Rattle.bd_query_filter.specs.FilterMatch.{accepts, all_accept, all_hold, all_match, holds, matches, some_match};

use crate::end_test::{
    CandidateTest, PresenceTest, SizeTest, any_member, any_of_type, any_related, equals_all,
    has_size,
};
use crate::value_test::{EqualityTest, KindTest, MemberTest, ValueTest, equals_each, is_related};
use bd_path::{Component, Path, Visits, any_end, is_document};
use bd_query_filter::{Filter, Operator, Relation};
use bd_value::{Kind, Reading};

/// Whether a value matches a filter. It takes no memory.
///
/// A path that reaches nothing in a value has one end, a missing field: MongoDB manual, "Query Documents".
#[cycle(matching)]
pub fn matches<N: Reading>(filter: &Filter, node: N) -> bool
    ensures { result ≡ matches (filter_tree filter.now) (N.tree node) }
{
    match filter {
        Filter::And(filters) => all_match(filters, node),
        Filter::Or(filters) => some_match(filters, node),
        Filter::Nor(filters) => !some_match(filters, node),
        Filter::Field { path, operators } => all_hold(operators, path, node),
    }
}

#[cycle(matching)]
fn all_match<N: Reading>(filters: &[Filter], node: N) -> bool
    ensures { result ≡ all_match (filters_from (map filter_tree filters.now)) (N.tree node) }
{
    for filter in filters {
        if !matches(filter, node) {
            return false;
        }
    }
    true
}

#[cycle(matching)]
fn some_match<N: Reading>(filters: &[Filter], node: N) -> bool
    ensures { result ≡ some_match (filters_from (map filter_tree filters.now)) (N.tree node) }
{
    for filter in filters {
        if matches(filter, node) {
            return true;
        }
    }
    false
}

/// Whether operators hold of the ends of a path.
#[cycle(matching)]
fn all_hold<N: Reading>(operators: &[Operator], path: &Path, node: N) -> bool
    ensures { result ≡ all_hold (operators_from (map operator_tree operators.now))
        (reach (N.tree node) (names_of path.now)) }
{
    for operator in operators {
        if !holds(operator, path, node) {
            return false;
        }
    }
    true
}

#[cycle(matching)]
fn holds<N: Reading>(operator: &Operator, path: &Path, node: N) -> bool
    ensures { result
        ≡ holds (operator_tree operator.now) (reach (N.tree node) (names_of path.now)) }
{
    match operator {
        Operator::Equal(operand) => any_end(node, path, &CandidateTest(EqualityTest(operand))),
        Operator::NotEqual(operand) => !any_end(node, path, &CandidateTest(EqualityTest(operand))),
        Operator::Greater(operand) => any_related(Relation::Above, operand, path, node),
        Operator::GreaterOrEqual(operand) => any_related(Relation::AtLeast, operand, path, node),
        Operator::Less(operand) => any_related(Relation::Below, operand, path, node),
        Operator::LessOrEqual(operand) => any_related(Relation::AtMost, operand, path, node),
        Operator::In(members) => any_member(members, path, node),
        Operator::NotIn(members) => !any_member(members, path, node),
        Operator::All(members) => equals_all(members, path, node),
        Operator::Size(size) => any_end(node, path, &SizeTest(*size)),
        Operator::Exists(exists) => any_end(node, path, &PresenceTest) == *exists,
        Operator::Type(kinds) => any_of_type(kinds, path, node),
        Operator::Not(operators) => !all_hold(operators, path, node),
        Operator::ElemMatch(operators) => reaches_match(node, path, &Body::Operators(operators)),
        Operator::ElemMatchDocument(filters) => reaches_match(node, path, &Body::Filters(filters)),
    }
}

/// Whether an element of an array that a path reaches matches the body of `$elemMatch`.
#[cycle(matching)]
fn reaches_match<N: Reading>(node: N, path: &Path, body: &Body) -> bool
    ensures { result ≡ list_any (is_matching body.now) (reach (N.tree node) (names_of path.now)) }
{
    let path = path.components();
    any_end_matches(node, 0, &Visits::Nowhere, &PathWalk { path, body: &*body })
}

/// Whether an element of an array at an end of the rest of a path matches the body of `$elemMatch`, from a component on.
///
/// It goes down as `any_end` does. It does not use `any_end`, since a test of an end cannot call the operators that call it.
#[cycle(matching)]
fn any_end_matches<N: Reading>(node: N, k: usize, visits: &Visits, path_walk: &PathWalk) -> bool
    requires within_limit { length path_walk.now.path.now ≤ most_names }
    requires at { k ≤ length path_walk.now.path.now }
    requires visited { CollectsNone (is_matching path_walk.now.body.now) ends
        (N.tree node) (component_names path_walk.now.path.now) visits.now }
    ensures { result ≡ list_any (is_matching path_walk.now.body.now)
        (reach (N.tree node) (drop k (component_names path_walk.now.path.now))) }
{
    let path = path_walk.path;
    if visits.has(k) {
        return false;
    }
    if k == path.len() {
        return any_matches_element(node, path_walk.body);
    }
    match node.kind() {
        Kind::Doc => any_end_matches_in_field(node, k, visits, path_walk),
        Kind::Array => {
            any_end_matches_in_documents(node, k, visits, path_walk)
                || any_end_matches_at_index(node, k, visits, path_walk)
        }
        _ => false,
    }
}

/// The same in the field of a document.
#[cycle(matching)]
fn any_end_matches_in_field<N: Reading>(
    node: N,
    k: usize,
    visits: &Visits,
    path_walk: &PathWalk,
) -> bool
    requires within_limit { length path_walk.now.path.now ≤ most_names }
    requires at { k < length path_walk.now.path.now }
    requires kind { kind_of (N.tree node) ≡ kinds.Doc }
    requires visited { CollectsNone (is_matching path_walk.now.body.now) ends
        (N.tree node) (component_names path_walk.now.path.now) visits.now }
    ensures { result ≡ list_any (is_matching path_walk.now.body.now)
        (reach (N.tree node) (drop k (component_names path_walk.now.path.now))) }
{
    let path = path_walk.path;
    let name = path[k].name.as_str();
    match node.first(name) {
        Some(value) => {
            let inside = visits.at_field(path, name);
            any_end_matches(value, k + 1, &inside, path_walk)
        }
        None => false,
    }
}

/// The same in the documents of an array.
#[cycle(matching)]
fn any_end_matches_in_documents<N: Reading>(
    node: N,
    k: usize,
    visits: &Visits,
    path_walk: &PathWalk,
) -> bool
    requires within_limit { length path_walk.now.path.now ≤ most_names }
    requires at { k < length path_walk.now.path.now }
    requires kind { kind_of (N.tree node) ≡ kinds.Array }
    requires visited { CollectsNone (is_matching path_walk.now.body.now) ends
        (N.tree node) (component_names path_walk.now.path.now) visits.now }
    ensures { result ≡ list_any (is_matching path_walk.now.body.now)
        (document_collecting ends (N.tree node) (drop k (component_names path_walk.now.path.now))) }
{
    let mut remaining = node.parts();
    for i in 0..usize::MAX {
        let Some(next) = N::next(&remaining) else {
            return false;
        };
        if is_document(next.1) {
            let inside = visits.at_document(path_walk.path, i);
            if any_end_matches(next.1, k, &inside, path_walk) {
                return true;
            }
        }
        remaining = next.2;
    }
    // Nothing remains: an array has no more elements than can be counted.
    let _count = node.len();
    false
}

/// The same in the element of an array whose index the component is, if any, after its documents.
#[cycle(matching)]
fn any_end_matches_at_index<N: Reading>(
    node: N,
    k: usize,
    visits: &Visits,
    path_walk: &PathWalk,
) -> bool
    requires within_limit { length path_walk.now.path.now ≤ most_names }
    requires at { k < length path_walk.now.path.now }
    requires kind { kind_of (N.tree node) ≡ kinds.Array }
    requires visited { CollectsNone (is_matching path_walk.now.body.now) ends
        (N.tree node) (component_names path_walk.now.path.now) visits.now }
    requires documents { list_any (is_matching path_walk.now.body.now) (document_collecting ends
        (N.tree node) (drop k (component_names path_walk.now.path.now))) ≡ false }
    ensures { result ≡ list_any (is_matching path_walk.now.body.now)
        (index_collecting ends (N.tree node) (drop k (component_names path_walk.now.path.now))) }
{
    let path = path_walk.path;
    match path[k].index {
        Some(i) if i < node.len() => {
            let element = node.element(i);
            let inside = visits.at_index(path, k, i, is_document(element));
            any_end_matches(element, k + 1, &inside, path_walk)
        }
        _ => false,
    }
}

/// Whether an element of an array matches the body of `$elemMatch`.
#[cycle(matching)]
fn any_matches_element<N: Reading>(node: N, body: &Body) -> bool
    ensures { result ≡ list_any (matches_element body.now) (elements_in (N.tree node)) }
{
    let Kind::Array = node.kind() else {
        return false;
    };
    let mut remaining = node.parts();
    while let Some(next) = N::next(&remaining) {
        if matches_element(next.1, body) {
            return true;
        }
        remaining = next.2;
    }
    false
}

#[cycle(matching)]
fn matches_element<N: Reading>(element: N, body: &Body) -> bool
    ensures { result ≡ matches_element body.now (N.tree element) }
{
    match body {
        Body::Operators(operators) => all_accept(operators, element),
        Body::Filters(filters) => element.kind() == Kind::Doc && all_match(filters, element),
    }
}

/// Whether operators hold of an element by itself.
#[cycle(matching)]
fn all_accept<N: Reading>(operators: &[Operator], element: N) -> bool
    ensures { result
        ≡ all_accept (operators_from (map operator_tree operators.now)) (N.tree element) }
{
    for operator in operators {
        if !accepts(operator, element) {
            return false;
        }
    }
    true
}

#[cycle(matching)]
fn accepts<N: Reading>(operator: &Operator, element: N) -> bool
    ensures { result ≡ accepts (operator_tree operator.now) (N.tree element) }
{
    match operator {
        Operator::Equal(operand) => EqualityTest(operand).test(element),
        Operator::NotEqual(operand) => !EqualityTest(operand).test(element),
        Operator::Greater(operand) => is_related(Relation::Above, operand, element),
        Operator::GreaterOrEqual(operand) => is_related(Relation::AtLeast, operand, element),
        Operator::Less(operand) => is_related(Relation::Below, operand, element),
        Operator::LessOrEqual(operand) => is_related(Relation::AtMost, operand, element),
        Operator::In(members) => MemberTest(members).test(element),
        Operator::NotIn(members) => !MemberTest(members).test(element),
        Operator::All(members) => equals_each(members, element),
        Operator::Size(size) => has_size(element, *size),
        Operator::Exists(exists) => *exists,
        Operator::Type(kinds) => KindTest(kinds).test(element),
        Operator::Not(operators) => !all_accept(operators, element),
        Operator::ElemMatch(operators) => any_matches_element(element, &Body::Operators(operators)),
        Operator::ElemMatchDocument(filters) => any_matches_element(
            element,
            &Body::Filters(filters),
        ),
    }
}

/// The body of `$elemMatch`, which tests an element.
#[derive(Clone, Copy)]
pub(crate) enum Body<'a> {
    /// They all hold of the element by itself.
    Operators(&'a [Operator]),
    /// The element is a document that matches each.
    Filters(&'a [Filter]),
}

/// The components of a path, and the test of the elements of the arrays that it reaches.
#[derive(Clone, Copy)]
pub(crate) struct PathWalk<'a> {
    path: &'a [Component],
    body: &'a Body<'a>,
}
