//! Bounds in memory.

ghost use Rattle.std.specs.Prelude.{◌≡◌, map};
ghost use Rattle.bd_value.specs.Tree as trees;
ghost use Rattle.bd_value.specs.Tree.{leaf};
ghost use Rattle.bd_index_bounds.specs.Bounds.{intersection, union};
ghost use Rattle.bd_index_bounds.specs.BoundsView.{keys_within, edge_cmp, is_before};

use bd_value::{Class, Reading, Tree, Value, class_of_node, compare_nodes};
use std::cmp::Ordering;

/// The bounds that a filter gives to an index: ranges of keys, combined as in the filter.
///
/// They borrow the values of the filter. An `$in` of n members has about n ranges. Two of these have as many ranges as they have
/// members together, since both are kept side by side.
#[derive(Drop)]
pub enum Bounds<'a> {
    /// The keys from one cutoff to another.
    Range { from: Cutoff<'a>, to: Cutoff<'a> },
    /// The keys that are in each of them.
    And(Vec<Bounds<'a>>),
    /// The keys that are in at least one of them; no key if there are none.
    Or(Vec<Bounds<'a>>),
}

impl<'a> Bounds<'a> {
    /// Whether a key is inside. It takes no memory.
    #[cycle(holding)]
    pub fn contains<N: Reading>(&self, key: N) -> bool
        ensures { result ≡ keys_within self.now (N.tree key) }
    {
        match self {
            Bounds::Range { from, to } => !from.has_before(key) && to.has_before(key),
            Bounds::And(parts) => all_contain(parts, key),
            Bounds::Or(parts) => any_contains(parts, key),
        }
    }

    /// Whether null is inside, the key that a sparse index omits if a field is missing. It takes no memory.
    pub fn has_null(&self) -> bool
        ensures { result ≡ keys_within self.now (leaf trees.null) }
    {
        self.contains(Tree::Value(&Value::Null))
    }
}

#[cycle(holding)]
fn all_contain<N: Reading>(parts: &[Bounds<'_>], key: N) -> bool
    ensures { result ≡ intersection (map keys_within parts.now) (N.tree key) }
{
    for part in parts {
        if !part.contains(key) {
            return false;
        }
    }
    true
}

#[cycle(holding)]
fn any_contains<N: Reading>(parts: &[Bounds<'_>], key: N) -> bool
    ensures { result ≡ union (map keys_within parts.now) (N.tree key) }
{
    for part in parts {
        if part.contains(key) {
            return true;
        }
    }
    false
}

/// A value, or a whole class of values.
#[derive(Clone, Copy)]
pub enum Edge<'a> {
    Value(&'a Value),
    Class(Class),
}

/// A position in the order of keys: before the keys that equal a value or are of a class, or after them.
#[derive(Clone, Copy)]
pub struct Cutoff<'a> {
    pub edge: Edge<'a>,
    pub after: bool,
}

impl<'a> Cutoff<'a> {
    /// Whether a key is before the cutoff. It takes no memory.
    pub fn has_before<N: Reading>(self, key: N) -> bool
        ensures { result ≡ is_before self.entry (N.tree key) }
    {
        let order = compare_edge(key, self.edge);
        if self.after {
            order.is_le()
        } else {
            order.is_lt()
        }
    }
}

/// How a key compares to an edge.
fn compare_edge<N: Reading>(key: N, edge: Edge<'_>) -> Ordering
    ensures { result ≡ edge_cmp (N.tree key) edge.entry }
{
    match edge {
        Edge::Value(value) => compare_nodes(key, Tree::Value(value)),
        Edge::Class(class) => class_of_node(key).cmp(&class),
    }
}
