//! The comparison order of values.

ghost use Rattle.std.specs.Prelude.{◌≡◌};
ghost use Rattle.std.specs.declared.cmp.Ordering.TheVariants.{Less, Equal, Greater};
ghost use Rattle.bd_value.specs.Order.{class_of, class_of_kind, class_cmp, cmp, equal, fields_cmp, items_cmp, pair_cmp, same_class_cmp};
ghost use Rattle.bd_value.specs.Order.{rank_cmp, rank_in, binary_size, by_bytes, by_number};
ghost use Rattle.bd_value.specs.inside.Order.{rank_view, leaf_rank};
ghost use Rattle.bd_value.specs.Tree.{fields_of, items_of, values_of, HasNoParts};
ghost use Rattle.bd_value.specs.View.{tree_of, kind_of, view_of};
ghost use Rattle.bd_value.specs.declared.node.Kind.TheVariants as kinds;

use crate::document::Value;
use crate::node::{Class, Kind, Reading, Scalar, Tree};
use std::cmp::Ordering;

/// The class of a value. It takes no memory.
pub fn class(value: &Value) -> Class
    ensures { result ≡ class_of (tree_of value.now) }
{
    class_of_node(Tree::Value(value))
}

/// The class of a value, in memory or in bytes. It takes no memory.
pub fn class_of_node<N: Reading>(node: N) -> Class
    ensures { result ≡ class_of (N.tree node) }
{
    class_of_kind(node.kind())
}

/// The class of the values of a kind. It takes no memory.
pub fn class_of_kind(kind: Kind) -> Class
    ensures { result ≡ class_of_kind kind }
{
    match kind {
        Kind::MinKey => Class::MinKey,
        Kind::Undefined => Class::Undefined,
        Kind::Null => Class::Null,
        Kind::Int32 | Kind::Int64 => Class::Number,
        Kind::Text | Kind::Symbol => Class::Text,
        Kind::Doc => Class::Doc,
        Kind::Array => Class::Array,
        Kind::Binary => Class::Binary,
        Kind::ObjectId => Class::ObjectId,
        Kind::Bool => Class::Bool,
        Kind::Date => Class::Date,
        Kind::Timestamp => Class::Timestamp,
        Kind::Regex => Class::Regex,
        Kind::DbPointer => Class::DbPointer,
        Kind::Code => Class::Code,
        Kind::CodeScope => Class::CodeScope,
        Kind::MaxKey => Class::MaxKey,
    }
}

/// The order of two values. It takes no memory.
pub fn compare(a: &Value, b: &Value) -> Ordering
    ensures { result ≡ cmp (tree_of a.now) (tree_of b.now) }
{
    compare_nodes(Tree::Value(a), Tree::Value(b))
}

/// Whether two values compare as equal, such as an int32 5 and an int64 5. It takes no memory.
pub fn equal(a: &Value, b: &Value) -> bool
    ensures { result ≡ equal (tree_of a.now) (tree_of b.now) }
{
    compare(a, b).is_eq()
}

/// The order of two values, each in memory or in bytes. It takes no memory.
///
/// MongoDB manual, "Comparison/Sort Order".
#[cycle(order)]
pub fn compare_nodes<M: Reading, N: Reading>(a: M, b: N) -> Ordering
    ensures { result ≡ cmp (M.tree a) (N.tree b) }
{
    match compare_classes(a, b) {
        Ordering::Equal => compare_within(a, b),
        unequal => unequal,
    }
}

/// The order of two values of one class.
#[cycle(order)]
fn compare_within<M: Reading, N: Reading>(a: M, b: N) -> Ordering
    requires { class_of (M.tree a) ≡ class_of (N.tree b) }
    ensures { result ≡ same_class_cmp (M.tree a) (N.tree b) }
{
    match a.kind() {
        Kind::Doc => compare_documents::<M, N>(a.parts(), b.parts()),
        Kind::Array => compare_arrays::<M, N>(a.parts(), b.parts()),
        Kind::CodeScope => compare_scopes(a, b),
        _ => compare_leaves(a, b),
    }
}

/// The order of two pairs: the class of the value, then the name, then the value.
#[cycle(order)]
fn compare_pairs<M: Reading, N: Reading>(m: &str, a: M, n: &str, b: N) -> Ordering
    ensures { result ≡ pair_cmp m.now (M.tree a) n.now (N.tree b) }
{
    match compare_classes(a, b) {
        Ordering::Equal => match m.cmp(n) {
            Ordering::Equal => compare_within(a, b),
            unequal => unequal,
        },
        unequal => unequal,
    }
}

/// The order of two documents.
#[cycle(order)]
fn compare_documents<M: Reading, N: Reading>(first: M::Rest, second: N::Rest) -> Ordering
    ensures { result ≡ fields_cmp (fields_of (M.remaining first)) (fields_of (N.remaining second)) }
{
    let mut remaining = first;
    let mut right = second;
    while let Some((m, a, remaining_after)) = M::next(&remaining) {
        let Some((n, b, right_after)) = N::next(&right) else {
            return Ordering::Greater;
        };
        let order = compare_pairs(m, a, n, b);
        if order != Ordering::Equal {
            return order;
        }
        remaining = remaining_after;
        right = right_after;
    }
    match N::next(&right) {
        Some(_) => Ordering::Less,
        None => Ordering::Equal,
    }
}

/// The order of two arrays.
#[cycle(order)]
fn compare_arrays<M: Reading, N: Reading>(first: M::Rest, second: N::Rest) -> Ordering
    ensures { result ≡ items_cmp
        (items_of (values_of (M.remaining first))) (items_of (values_of (N.remaining second))) }
{
    let mut remaining = first;
    let mut right = second;
    while let Some((_, a, remaining_after)) = M::next(&remaining) {
        let Some((_, b, right_after)) = N::next(&right) else {
            return Ordering::Greater;
        };
        let order = compare_nodes(a, b);
        if order != Ordering::Equal {
            return order;
        }
        remaining = remaining_after;
        right = right_after;
    }
    match N::next(&right) {
        Some(_) => Ordering::Less,
        None => Ordering::Equal,
    }
}

/// The order of two codes with scope.
#[cycle(order)]
fn compare_scopes<M: Reading, N: Reading>(a: M, b: N) -> Ordering
    requires first { kind_of (M.tree a) ≡ kinds.CodeScope }
    requires second { kind_of (N.tree b) ≡ kinds.CodeScope }
    ensures { result ≡ same_class_cmp (M.tree a) (N.tree b) }
{
    let order = compare_leaves(a, b);
    if order != Ordering::Equal {
        return order;
    }
    let Some(first) = a.scope() else {
        unreachable!()
    };
    let Some(second) = b.scope() else {
        unreachable!()
    };
    compare_documents::<M, N>(first.parts(), second.parts())
}

/// The order of two values of one class by their scalars, or by the code of code with scope.
fn compare_leaves<M: Reading, N: Reading>(a: M, b: N) -> Ordering
    requires first { HasNoParts (M.tree a) }
    requires second { HasNoParts (N.tree b) }
    ensures { result ≡ rank_cmp (rank_in (M.tree a)) (rank_in (N.tree b)) }
{
    let Some(first) = a.leaf() else {
        unreachable!()
    };
    let Some(second) = b.leaf() else {
        unreachable!()
    };
    compare_ranks(rank_of(&first), rank_of(&second))
}

fn compare_classes<M: Reading, N: Reading>(a: M, b: N) -> Ordering
    ensures { result ≡ class_cmp (M.tree a) (N.tree b) }
{
    (class_of_node(a) as u8).cmp(&(class_of_node(b) as u8))
}

/// A number, a size, a lesser number, bytes, and more bytes, which are compared in turn. What a class does not use is 0 or empty.
#[derive(Clone, Copy)]
struct Rank<'a> {
    number: i64,
    size: u64,
    lesser: u32,
    bytes: &'a [u8],
    more: &'a [u8],
}

const NOTHING: &[u8] = &[];

fn by_number<'a>(number: i64) -> Rank<'a>
    ensures { rank_view result ≡ by_number number }
{
    Rank {
        number,
        size: 0,
        lesser: 0,
        bytes: NOTHING,
        more: NOTHING,
    }
}

fn by_bytes<'a>(bytes: &'a [u8], more: &'a [u8]) -> Rank<'a>
    ensures { rank_view result ≡ by_bytes bytes.now more.now }
{
    Rank {
        number: 0,
        size: 0,
        lesser: 0,
        bytes,
        more,
    }
}

/// The size of binary data as BSON writes it: subtype 02 has four bytes more.
fn binary_size(subtype: u8, payload: &[u8]) -> u64
    ensures { result ≡ binary_size subtype payload.now }
{
    let size = payload.len() as u64;
    if subtype == 2 { size + 4 } else { size }
}

/// What a scalar is compared by, or code with scope by its code.
fn rank_of<'a>(scalar: &'a Scalar<'a>) -> Rank<'a>
    ensures { rank_view result ≡ leaf_rank (view_of scalar.now) }
{
    match scalar {
        Scalar::MinKey | Scalar::Undefined | Scalar::Null | Scalar::MaxKey => by_number(0),
        Scalar::Int32(number) => by_number(*number as i64),
        Scalar::Int64(number) | Scalar::Date(number) => by_number(*number),
        Scalar::Text(text) | Scalar::Symbol(text) => by_bytes(text.as_bytes(), NOTHING),
        Scalar::Code(code) | Scalar::CodeScope(code) => by_bytes(code.as_bytes(), NOTHING),
        Scalar::Binary { subtype, payload } => Rank {
            number: 0,
            size: binary_size(*subtype, payload),
            lesser: *subtype as u32,
            bytes: payload,
            more: NOTHING,
        },
        Scalar::ObjectId(id) => by_bytes(id, NOTHING),
        Scalar::Bool(truth) => by_number(*truth as i64),
        Scalar::Timestamp { seconds, increment } => Rank {
            number: *seconds as i64,
            size: 0,
            lesser: *increment,
            bytes: NOTHING,
            more: NOTHING,
        },
        Scalar::Regex { pattern, options } => by_bytes(pattern.as_bytes(), options.as_bytes()),
        Scalar::DbPointer { space, id } => by_bytes(space.as_bytes(), id),
    }
}

/// The order of the ranks of two values of one class.
fn compare_ranks(a: Rank<'_>, b: Rank<'_>) -> Ordering
    ensures { result ≡ rank_cmp (rank_view a.entry) (rank_view b.entry) }
{
    match a.number.cmp(&b.number) {
        Ordering::Equal => match a.size.cmp(&b.size).then(a.lesser.cmp(&b.lesser)) {
            Ordering::Equal => match a.bytes.cmp(b.bytes) {
                Ordering::Equal => a.more.cmp(b.more),
                unequal => unequal,
            },
            unequal => unequal,
        },
        unequal => unequal,
    }
}
