//! Tests of an end of a path.

ghost use Rattle.std.specs.Prelude.{◌≡◌, ◌&&◌, ◌||◌, Bool, is_some, map};
ghost use Rattle.std.specs.List.{list_all, list_any};
ghost use Rattle.bd_value.specs.Tree.{elements_in};
ghost use Rattle.bd_value.specs.View.{tree_of};
ghost use Rattle.bd_path.specs.PathNames.{names_of};
ghost use Rattle.bd_path.specs.Reach.{reach};
ghost use Rattle.bd_query_filter.specs.FilterMatch.{any_candidate, any_equal, candidates, is_nonempty, is_of_size, is_of_type, is_related, is_value, value_or_null};
ghost use Rattle.bd_query_filter.specs.Filter.{trees_in};

use crate::value_test::{EqualityTest, KindTest, MemberTest, RelationTest, ValueTest, any_element};
use bd_path::{EndTest, Path, any_end};
use bd_query_filter::{Members, Relation};
use bd_value::{Kind, Reading, Tree, Value};

/// A candidate passes; a missing field counts as null.
#[derive(Clone, Copy)]
pub struct CandidateTest<T>(pub T);

impl<T: ValueTest> EndTest for CandidateTest<T> {
    ghost passes = { λ s e. list_any (λ c. T.accepts s.0 (value_or_null c)) (candidates e) };

    fn test<N: Reading>(&self, end: Option<N>) -> bool {
        match end {
            None => self.0.test(Tree::Value(&Value::Null)),
            Some(node) => any_inside(node, &self.0),
        }
    }
}

/// A candidate that is a value passes.
#[derive(Clone, Copy)]
pub struct ValueCandidateTest<T>(pub T);

impl<T: ValueTest> EndTest for ValueCandidateTest<T> {
    ghost passes = { λ s e. list_any (is_value (T.accepts s.0)) (candidates e) };

    fn test<N: Reading>(&self, end: Option<N>) -> bool {
        match end {
            None => false,
            Some(node) => any_inside(node, &self.0),
        }
    }
}

/// Whether it passes or, if it is an array, an element does.
fn any_inside<N: Reading, T: ValueTest>(node: N, test: &T) -> bool
    ensures { result ≡ (T.accepts test.now (N.tree node)
        || list_any (T.accepts test.now) (elements_in (N.tree node))) }
{
    test.test(node) || any_element(node, test)
}

/// An array of exactly n elements.
#[derive(Clone, Copy)]
pub struct SizeTest(pub u64);

impl EndTest for SizeTest {
    ghost passes = { λ s. is_value (is_of_size s.0) };

    fn test<N: Reading>(&self, end: Option<N>) -> bool {
        match end {
            None => false,
            Some(node) => has_size(node, self.0),
        }
    }
}

/// Whether it is an array of exactly `size` elements.
pub(crate) fn has_size<N: Reading>(node: N, size: u64) -> bool
    ensures { result ≡ is_of_size size (N.tree node) }
{
    match node.kind() {
        Kind::Array => node.len() as u64 == size,
        _ => false,
    }
}

/// There is a value.
#[derive(Clone, Copy)]
pub struct PresenceTest;

impl EndTest for PresenceTest {
    ghost passes = { λ _. is_some };

    fn test<N: Reading>(&self, end: Option<N>) -> bool {
        end.is_some()
    }
}

/// Whether there are members, and each is equalled by a candidate.
pub(crate) fn equals_all<N: Reading>(members: &[Value], path: &Path, node: N) -> bool
    ensures { result ≡ (is_nonempty (map tree_of members.now) && list_all
        (any_equal (reach (N.tree node) (names_of path.now))) (map tree_of members.now)) }
{
    match members {
        [] => false,
        _ => are_equalled(members, path, node),
    }
}

/// Whether each member is equalled by a candidate.
fn are_equalled<N: Reading>(members: &[Value], path: &Path, node: N) -> bool
    ensures { result ≡ list_all (λ v.
        any_equal (reach (N.tree node) (names_of path.now)) (tree_of v)) members.now }
{
    members.iter().all(|member| any_end(node, path, &CandidateTest(EqualityTest(member))))
}

/// Whether a candidate of the operand's class satisfies the relation.
pub(crate) fn any_related<N: Reading>(
    relation: Relation,
    operand: &Value,
    path: &Path,
    node: N,
) -> bool
    ensures { result ≡ any_candidate (λ e. is_related relation
        (tree_of operand.now) (value_or_null e)) (reach (N.tree node) (names_of path.now)) }
{
    any_end(
        node,
        path,
        &CandidateTest(RelationTest { relation, operand }),
    )
}

/// Whether a candidate equals a member. There is one path walk, whatever the number of members.
pub(crate) fn any_member<N: Reading>(members: &Members, path: &Path, node: N) -> bool
    ensures { result
        ≡ list_any (any_equal (reach (N.tree node) (names_of path.now))) (trees_in members.now) }
{
    any_end(node, path, &CandidateTest(MemberTest(members)))
}

/// Whether a candidate that is a value is of one of the kinds.
pub(crate) fn any_of_type<N: Reading>(kinds: &[Kind], path: &Path, node: N) -> bool
    ensures { result ≡ any_candidate
        (is_value (is_of_type kinds.now)) (reach (N.tree node) (names_of path.now)) }
{
    any_end(node, path, &ValueCandidateTest(KindTest(kinds)))
}
