//! Filters in memory.

ghost use Rattle.std.specs.Prelude.{◌≡◌, IfOk, length};
ghost use Rattle.std.specs.List.{list_any, range_with_len};
ghost use Rattle.std.specs.List.Sorted.{IsPermutation, IsSortedByKey};
ghost use Rattle.bd_value.specs.Order.{cmp, equal};
ghost use Rattle.bd_query_filter.specs.inside.Indexes.{tree_at};

use bd_path::Path;
use bd_value::{Kind, NoMemory, Reading, Tree, Value, compare_nodes};
use std::alloc::Global;
use std::cmp::Ordering;

/// A filter of documents.
///
/// MongoDB manual, "Logical Query Operators". A document of several pairs is `And` of them, and so is one of a single pair.
#[cycle(filter)]
#[derive(Drop)]
pub enum Filter {
    /// `$and`: each of the filters matches. Without filters all documents match.
    And(Vec<Filter>),
    /// `$or`: one of the filters matches.
    Or(Vec<Filter>),
    /// `$nor`: none of the filters matches.
    Nor(Vec<Filter>),
    /// A path, and the operators that must all hold of the values that it reaches.
    Field {
        path: Path,
        operators: Vec<Operator>,
    },
}

/// A test of the values that a path reaches, or of an element of an array by itself.
///
/// MongoDB manual, "Comparison Query Operators", "Element Query Operators" and "Array Query Operators".
#[cycle(filter)]
#[derive(Drop)]
pub enum Operator {
    /// `$eq`, and a value by itself: one equals it.
    Equal(Value),
    /// `$ne`: none equals it.
    NotEqual(Value),
    /// `$gt`: one of its class is above it.
    Greater(Value),
    /// `$gte`: one of its class is above it or equals it.
    GreaterOrEqual(Value),
    /// `$lt`: one of its class is below it.
    Less(Value),
    /// `$lte`: one of its class is below it or equals it.
    LessOrEqual(Value),
    /// `$in`: one equals a member.
    In(Members),
    /// `$nin`: none equals a member.
    NotIn(Members),
    /// `$all`: each member is equalled. Without members nothing matches.
    All(Vec<Value>),
    /// `$size`: an array of exactly n elements.
    Size(u64),
    /// `$exists`: whether a value is there.
    Exists(bool),
    /// `$type`: one is of one of these kinds. Doubles and decimals have none.
    Type(Vec<Kind>),
    /// `$not`: not all of the operators hold.
    Not(Vec<Operator>),
    /// `$elemMatch` with operators: they all hold of one element of an array.
    ElemMatch(Vec<Operator>),
    /// `$elemMatch` with a filter: an element of an array is a document that matches each of them.
    ElemMatchDocument(Vec<Filter>),
}

/// The members of `$in` and `$nin`, in the order of the query, with an index for look-ups in the order of values.
#[derive(Drop)]
pub struct Members {
    values: Vec<Value>,
    /// The index of each value, ascending by the value.
    indexes: Vec<usize>,

    ghost all: { ∥ IsPermutation (range_with_len 0 (length values.items)) indexes.items ∥₁ },
    ghost ascending: { IsSortedByKey (tree_at values.items) cmp indexes.items },
}

impl Members {
    ghost use Rattle.bd_query_filter.specs.Filter.{trees_in, values_in};

    /// Members of these values, in order. It fails only if memory runs out, and then drops them.
    pub fn new(alloc: Global, values: Vec<Value>) -> Result<Members, NoMemory>
        ensures { IfOk result (λ m. values_in m ≡ values.items) }
    {
        let indexes = indexes_in_order(alloc, &values)?;
        Ok(Members { values, indexes })
    }

    /// The values, in order. It takes no memory.
    pub fn as_slice(&self) -> &[Value]
        ensures { result.now ≡ values_in self.now }
    {
        &self.values
    }

    /// Whether a value, in memory or in bytes, equals a member. It takes no memory, and compares the value with about log n
    /// of n members.
    pub fn contains<N: Reading>(&self, node: N) -> bool
        ensures { result ≡ list_any (equal (N.tree node)) (trees_in self.now) }
    {
        self.indexes
            .binary_search_by(|index| compare_at(&self.values, *index, node))
            .is_ok()
    }
}

/// The index of each value, ascending by the value. It fails only if memory runs out.
fn indexes_in_order(alloc: Global, values: &[Value]) -> Result<Vec<usize>, NoMemory>
    ensures all { IfOk result (λ v. IsPermutation (range_with_len 0 (length values.now)) v.items) }
    ensures ascending { IfOk result (λ v. IsSortedByKey (tree_at values.now) cmp v.items) }
{
    let mut indexes = indexes_below(alloc, values.len())?;
    indexes.sort_unstable_by(|first, second| compare_indexes(values, *first, *second));
    Ok(indexes)
}

/// Each index below a number, ascending. It fails only if memory runs out.
fn indexes_below(alloc: Global, end: usize) -> Result<Vec<usize>, NoMemory>
    ensures { IfOk result (λ v. v.items ≡ range_with_len 0 end) }
{
    (0..end).collect(alloc)
}

/// The order of two values by their indexes. After the last an index means null.
fn compare_indexes(values: &[Value], first: usize, second: usize) -> Ordering
    ensures { result ≡ cmp (tree_at values.now first) (tree_at values.now second) }
{
    match values.get(second) {
        Some(value) => compare_at(values, first, Tree::Value(value)),
        None => compare_at(values, first, Tree::Value(&Value::Null)),
    }
}

/// The order of the value at an index to another value. After the last an index means null.
fn compare_at<N: Reading>(values: &[Value], index: usize, node: N) -> Ordering
    ensures { result ≡ cmp (tree_at values.now index) (N.tree node) }
{
    match values.get(index) {
        Some(value) => compare_nodes(Tree::Value(value), node),
        None => compare_nodes(Tree::Value(&Value::Null), node),
    }
}
