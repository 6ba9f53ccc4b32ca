//! Tests of one value.

ghost use Rattle.std.specs.Prelude.{◌≡◌, ◌&&◌, Bool, map};
ghost use Rattle.std.specs.List.{list_all, list_any};
ghost use Rattle.bd_value.specs.Order.{equal};
ghost use Rattle.bd_value.specs.Tree.{elements_in};
ghost use Rattle.bd_value.specs.Tree as trees;
ghost use Rattle.bd_value.specs.View.{tree_of};
ghost use Rattle.bd_query_filter.specs.FilterMatch.{is_nonempty, is_of_type, is_related};
ghost use Rattle.bd_query_filter.specs.Filter.{trees_in};
ghost use Rattle.bd_query_filter.specs.NameKind.{is_kind};

use bd_query_filter::{Members, Relation, relates};
use bd_value::{Kind, Reading, Tree, Value, class_of_node, compare_nodes};

/// A test of one value.
pub trait ValueTest {
    /// The test, of a tree.
    ghost accepts: { Self → trees.Tree → Bool };

    /// Whether a value passes.
    fn test<N: Reading>(&self, node: N) -> bool
        ensures { result ≡ accepts self.now (N.tree node) };
}

/// It equals the operand.
#[derive(Clone, Copy)]
pub struct EqualityTest<'a>(pub &'a Value);

impl<'a> ValueTest for EqualityTest<'a> {
    ghost accepts = { λ s t. equal t (tree_of s.0.now) };

    fn test<N: Reading>(&self, node: N) -> bool {
        compare_nodes(node, Tree::Value(self.0)).is_eq()
    }
}

/// It equals a member.
#[derive(Clone, Copy)]
pub struct MemberTest<'a>(pub &'a Members);

impl<'a> ValueTest for MemberTest<'a> {
    ghost accepts = { λ s t. list_any (equal t) (trees_in s.0.now) };

    fn test<N: Reading>(&self, node: N) -> bool {
        self.0.contains(node)
    }
}

/// It is of the operand's class, and satisfies the relation.
#[derive(Clone, Copy)]
pub struct RelationTest<'a> {
    pub relation: Relation,
    pub operand: &'a Value,
}

impl<'a> ValueTest for RelationTest<'a> {
    ghost accepts = { λ s t. is_related s.relation (tree_of s.operand.now) t };

    fn test<N: Reading>(&self, node: N) -> bool {
        let operand = Tree::Value(self.operand);
        class_of_node(node).cmp(&class_of_node(operand)).is_eq()
            && relates(self.relation, compare_nodes(node, operand))
    }
}

/// It is of one of the kinds.
#[derive(Clone, Copy)]
pub struct KindTest<'a>(pub &'a [Kind]);

impl<'a> ValueTest for KindTest<'a> {
    ghost accepts = { λ s t. is_of_type s.0.now t };

    fn test<N: Reading>(&self, node: N) -> bool {
        has_kind(self.0, node.kind())
    }
}

/// Whether a kind is among some.
fn has_kind(kinds: &[Kind], kind: Kind) -> bool
    ensures { result ≡ list_any (λ k. is_kind k kind) kinds.now }
{
    kinds.iter().any(|k| is_same(*k, kind))
}

fn is_same(a: Kind, b: Kind) -> bool
    ensures { result ≡ is_kind a b }
{
    a == b
}

/// Whether an element of an array passes.
pub(crate) fn any_element<N: Reading, T: ValueTest>(node: N, test: &T) -> bool
    ensures { result ≡ list_any (T.accepts test.now) (elements_in (N.tree node)) }
{
    let Kind::Array = node.kind() else {
        return false;
    };
    let mut remaining = node.parts();
    while let Some(next) = N::next(&remaining) {
        if test.test(next.1) {
            return true;
        }
        remaining = next.2;
    }
    false
}

/// Whether there are members, and it equals each.
pub(crate) fn equals_each<N: Reading>(members: &[Value], node: N) -> bool
    ensures { result ≡ (is_nonempty (map tree_of members.now)
        && list_all (equal (N.tree node)) (map tree_of members.now)) }
{
    match members {
        [] => false,
        _ => are_equal(members, node),
    }
}

fn are_equal<N: Reading>(members: &[Value], node: N) -> bool
    ensures { result ≡ list_all (λ v. equal (N.tree node) (tree_of v)) members.now }
{
    members
        .iter()
        .all(|member| compare_nodes(node, Tree::Value(member)).is_eq())
}

/// Whether it is of the operand's class, and satisfies the relation.
pub(crate) fn is_related<N: Reading>(relation: Relation, operand: &Value, node: N) -> bool
    ensures { result ≡ is_related relation (tree_of operand.now) (N.tree node) }
{
    RelationTest { relation, operand }.test(node)
}
