//! `$type` and the four types of numbers: which of them a query separates, and their classes.

ghost use Rattle.std.specs.Prelude.{◌≡◌, IfNone, IfSome, false, true};
ghost use Rattle.std.specs.List.{list_any};
ghost use Rattle.bd_value.specs.Tree as trees;
ghost use Rattle.bd_value.specs.Tree.{fields_of, items_of, leaf, values_of};
ghost use Rattle.bd_value.specs.View.{node_parts, node_tree, pairs};
ghost use Rattle.bd_wide_query.specs.Types.{class_name as class_name_of, element_type, is_alone as is_alone_of, is_number_name as is_number_name_of, longs_of};
ghost use Rattle.bd_wide_query.specs.Types.{fields_are_alike, is_alike as is_alike_of, is_alike_at as is_alike_at_of, items_are_alike};
ghost use Rattle.bd_wide_query.specs.Types.{is_type as is_type_of, names_type as names_type_of, type_alone as type_alone_of, type_by_class, type_code, type_name};

use bd_bson_view::ElementType;
use bd_value::{Document, Kind, Node, Reading, Scalar, Tree, TreeParts};
use bd_wide_copy::Longs;

/// A type of numbers, by its name for `$type`.
#[derive(Clone, Copy)]
pub(crate) enum NumberType {
    /// Double.
    Double,
    /// int32.
    Int,
    /// int64.
    Long,
    /// decimal128.
    Decimal,
}

impl NumberType {
    /// Its number.
    fn code(self) -> i64
        ensures { result ≡ type_code self }
    {
        match self {
            NumberType::Double => 1,
            NumberType::Int => 16,
            NumberType::Long => 18,
            NumberType::Decimal => 19,
        }
    }

    /// Its name.
    fn name(self) -> &'static str
        ensures { result.now ≡ type_name self }
    {
        match self {
            NumberType::Double => "double",
            NumberType::Int => "int",
            NumberType::Long => "long",
            NumberType::Decimal => "decimal",
        }
    }

    /// The type in a document.
    fn typed(self) -> ElementType
        ensures { result ≡ element_type self }
    {
        match self {
            NumberType::Double => ElementType::Double,
            NumberType::Int => ElementType::Kept(Kind::Int32),
            NumberType::Long => ElementType::Kept(Kind::Int64),
            NumberType::Decimal => ElementType::Decimal128,
        }
    }
}

/// The two classes of the types of numbers that each `$type` of a query treats alike, where two are enough: by the types that some
/// `$type` separates from int32. It takes no memory.
pub fn classes_of(query: &Document) -> Longs
    ensures { result ≡ longs_of (fields_of (pairs query.now)) }
{
    Longs {
        double: !are_alike(NumberType::Int, NumberType::Double, query),
        int64: !are_alike(NumberType::Int, NumberType::Long, query),
        decimal128: !are_alike(NumberType::Int, NumberType::Decimal, query),
    }
}

/// Whether each `$type` in a query names both types, or neither: at any level, in a document that is compared as a whole too.
fn are_alike(one: NumberType, other: NumberType, query: &Document) -> bool
    ensures { result ≡ fields_are_alike one other (fields_of (pairs query.now)) }
{
    pairs_are_alike(one, other, Tree::Doc(query).parts())
}

/// The same of the pairs of a document.
#[cycle(types)]
fn pairs_are_alike(one: NumberType, other: NumberType, parts: TreeParts<'_>) -> bool
    ensures { result ≡ fields_are_alike one other (fields_of (node_parts parts.entry)) }
{
    let mut rest = parts;
    while let Some((name, value, after)) = Tree::next(&rest) {
        if !is_alike_at(one, other, name, value) || !is_alike(one, other, value) {
            return false;
        }
        rest = after;
    }
    true
}

/// The same of the elements of an array.
#[cycle(types)]
fn items_are_alike(one: NumberType, other: NumberType, parts: TreeParts<'_>) -> bool
    ensures { result ≡ items_are_alike one other (items_of (values_of (node_parts parts.entry))) }
{
    let mut rest = parts;
    while let Some((_, value, after)) = Tree::next(&rest) {
        if !is_alike(one, other, value) {
            return false;
        }
        rest = after;
    }
    true
}

/// The same of a value.
#[cycle(types)]
fn is_alike(one: NumberType, other: NumberType, value: Tree<'_>) -> bool
    ensures { result ≡ is_alike_of one other (node_tree value.entry) }
{
    match value.kind() {
        Kind::Doc => pairs_are_alike(one, other, value.parts()),
        Kind::Array => items_are_alike(one, other, value.parts()),
        Kind::CodeScope => match value.scope() {
            Some(scope) => pairs_are_alike(one, other, scope.parts()),
            None => unreachable!(),
        },
        _ => true,
    }
}

/// Whether the value of a name, if that is `$type`, names both types or neither.
fn is_alike_at(one: NumberType, other: NumberType, name: &str, value: Tree<'_>) -> bool
    ensures { result ≡ is_alike_at_of one other name.now (node_tree value.entry) }
{
    if name != "$type" {
        return true;
    }
    names_type(one, value) == names_type(other, value)
}

/// Whether an operand of `$type` names a type.
pub(crate) fn names_type(kind: NumberType, value: Tree<'_>) -> bool
    ensures { result ≡ names_type_of kind (node_tree value.entry) }
{
    match value.kind() {
        Kind::Array => one_is_type(kind, value.parts()),
        _ => is_type(kind, value),
    }
}

/// Whether a member of an array is that type.
fn one_is_type(kind: NumberType, parts: TreeParts<'_>) -> bool
    ensures { result ≡ list_any (is_type_of kind) (values_of (node_parts parts.entry)) }
{
    let mut rest = parts;
    while let Some((_, value, after)) = Tree::next(&rest) {
        if is_type(kind, value) {
            return true;
        }
        rest = after;
    }
    false
}

/// Whether a value is the number or the name of a type.
fn is_type(kind: NumberType, value: Tree<'_>) -> bool
    ensures { result ≡ is_type_of kind (node_tree value.entry) }
{
    is_alone(kind, value) || is_number_name(value)
}

/// Whether a value is the number or the name of a type alone.
fn is_alone(kind: NumberType, value: Tree<'_>) -> bool
    ensures { result ≡ is_alone_of kind (node_tree value.entry) }
{
    match value.scalar() {
        Some(Scalar::Text(text)) => text == kind.name(),
        Some(Scalar::Int32(z)) => i64::from(z) == kind.code(),
        Some(Scalar::Int64(z)) => z == kind.code(),
        _ => false,
    }
}

/// Whether a value is `number`, the name of each of the four.
fn is_number_name(value: Tree<'_>) -> bool
    ensures { result ≡ is_number_name_of (node_tree value.entry) }
{
    match value.scalar() {
        Some(Scalar::Text(text)) => text == "number",
        _ => false,
    }
}

/// The name of the class of the type that a scalar of an operand of `$type` names, if that is to be in its place.
pub(crate) fn class_in(longs: Longs, value: Tree<'_>) -> Option<&'static str>
    ensures some { IfSome result (λ name.
        type_by_class longs (node_tree value.entry) ≡ leaf (trees.text name.now)) }
    ensures none { IfNone result
        (type_by_class longs (node_tree value.entry) ≡ node_tree value.entry) }
{
    if !(longs.double || longs.int64 || longs.decimal128) {
        return None;
    }
    match type_alone(value) {
        Some(kind) => Some(class_name(longs, kind)),
        None => None,
    }
}

/// The name of the class of a type.
fn class_name(longs: Longs, kind: NumberType) -> &'static str
    ensures { result.now ≡ class_name_of longs kind }
{
    if longs.is_long(kind.typed()) {
        "long"
    } else {
        "int"
    }
}

/// The type that a value names alone.
fn type_alone(value: Tree<'_>) -> Option<NumberType>
    ensures { result ≡ type_alone_of (node_tree value.entry) }
{
    if is_alone(NumberType::Double, value) {
        Some(NumberType::Double)
    } else if is_alone(NumberType::Int, value) {
        Some(NumberType::Int)
    } else if is_alone(NumberType::Long, value) {
        Some(NumberType::Long)
    } else if is_alone(NumberType::Decimal, value) {
        Some(NumberType::Decimal)
    } else {
        None
    }
}
