//! Reading a value, in memory or in bytes, through method calls alone; and a value in memory.

ghost use Rattle.std.specs.Prelude.{◌≡◌, ◌<◌, Some, None, Option, option_map, length, slice_get, List, ℕ, [], ◌∷◌, IfSome, IfNone};
ghost use Rattle.bd_value.specs.Tree as trees;
ghost use Rattle.bd_value.specs.Tree.{pairs_in, elements_in, length_of, scope_of, leaf_of, first_of, HasParts, AreParts};
ghost use Rattle.bd_value.specs.View.{tree_of, pairs, view_of, node_tree, node_parts, kind_of};

use crate::document::{Document, Value};

/// The reading of a value, without a lifetime, so that a function can descend into a value by it.
///
/// A node means a tree, and each method answers as for the tree. The nodes that a method returns have the same source. No
/// method takes memory.
pub trait Reading: Copy {
    /// The pairs of a document or the elements of an array, from an index on.
    type Rest: Copy;

    /// The value of the node.
    ghost tree: { Self → trees.Tree };
    /// The bytes that contain it. A tree in memory has none.
    ghost source: { Self → List ℕ };
    /// The remaining names and trees. The names of an array's elements may be anything.
    ghost remaining: { Self.Rest → trees.Doc };
    /// The bytes that contain them.
    ghost rest_source: { Self.Rest → List ℕ };

    /// Its kind.
    fn kind(self) -> Kind
        ensures { result ≡ kind_of (tree self) };

    /// The scalar, or the code of code with scope; None for a document and an array. It lives as long as the node.
    fn leaf(&self) -> Option<Scalar<'_>>
        ensures { option_map view_of result ≡ leaf_of (tree self.now) };

    /// The scope of code with scope.
    fn scope(self) -> Option<Self>
        ensures scope { option_map tree result ≡ scope_of (tree self) }
        ensures same_source { IfSome result (λ n. source n ≡ source self) };

    /// The number of pairs of a document, or of elements of an array; 0 for any other value.
    fn len(self) -> usize
        ensures { result ≡ length_of (tree self) };

    /// The name and the value of the pair of a document at an index, counted from 0. The name lives as long as the node.
    fn field(&self, i: usize) -> (&str, Self)
        requires { i < length (pairs_in (tree self.now)) }
        ensures field { slice_get (pairs_in (tree self.now)) i
            ≡ Some (result.0.now, tree result.1) }
        ensures same_source { source result.1 ≡ source self.now };

    /// The element of an array at an index, counted from 0.
    fn element(self, i: usize) -> Self
        requires { i < length (elements_in (tree self)) }
        ensures element { slice_get (elements_in (tree self)) i ≡ Some (tree result) }
        ensures same_source { source result ≡ source self };

    /// The value of the first pair of that name; None if no pair has it, or if it is not a document.
    fn first(self, name: &str) -> Option<Self>
        ensures first { option_map tree result ≡ first_of name.now (pairs_in (tree self)) }
        ensures same_source { IfSome result (λ n. source n ≡ source self) };

    /// All pairs of a document, or elements of an array.
    fn parts(self) -> Self::Rest
        requires { HasParts (tree self) }
        ensures parts { AreParts (tree self) (remaining result) }
        ensures same_source { rest_source result ≡ source self };

    /// The next of them: its name, its value, and those after it; None at the end.
    fn next(rest: &Self::Rest) -> Option<(&str, Self, Self::Rest)>
        ensures some { IfSome result (λ x.
            remaining rest.now ≡ (x.0.now, tree x.1) ∷ remaining x.2) }
        ensures same_source { IfSome result (λ x. source x.1 ≡ rest_source rest.now) }
        ensures rest { IfSome result (λ x. rest_source x.2 ≡ rest_source rest.now) }
        ensures none { IfNone result (remaining rest.now ≡ []) };
}

/// The reading of a value whose texts live as long as the value.
pub trait Node<'a>: Reading {
    /// The scalar, or the code of code with scope; None for a document and an array.
    fn scalar(self) -> Option<Scalar<'a>>
        ensures { option_map view_of result ≡ leaf_of (Self.tree self) };

    /// The name and the value of the pair of a document at an index, counted from 0.
    fn pair(self, i: usize) -> (&'a str, Self)
        requires { i < length (pairs_in (Self.tree self)) }
        ensures pair { slice_get (pairs_in (Self.tree self)) i
            ≡ Some (result.0.now, Self.tree result.1) }
        ensures same_source { Self.source result.1 ≡ Self.source self };
}

/// The kind of a value: one of nineteen, in the order of `Value`.
///
/// BSON 1.1, the types of `element`.
#[derive(Clone, Copy, Debug, PartialEq, Eq)]
pub enum Kind {
    MinKey,
    Undefined,
    Null,
    Int32,
    Int64,
    Text,
    Symbol,
    Doc,
    Array,
    Binary,
    ObjectId,
    Bool,
    Date,
    Timestamp,
    Regex,
    DbPointer,
    Code,
    CodeScope,
    MaxKey,
}

/// A scalar, or the code of code with scope, borrowed. Documents and arrays have none.
///
/// BSON 1.1, the values of `element`.
#[derive(Clone, Copy)]
pub enum Scalar<'a> {
    MinKey,
    Undefined,
    Null,
    Int32(i32),
    Int64(i64),
    Text(&'a str),
    Symbol(&'a str),
    Binary {
        subtype: u8,
        /// For subtype 02, the bytes after its inner length.
        payload: &'a [u8],
    },
    ObjectId([u8; 12]),
    Bool(bool),
    /// Milliseconds since 1970-01-01T00:00:00Z.
    Date(i64),
    Timestamp {
        seconds: u32,
        increment: u32,
    },
    Regex {
        pattern: &'a str,
        options: &'a str,
    },
    DbPointer {
        space: &'a str,
        id: [u8; 12],
    },
    Code(&'a str),
    CodeScope(&'a str),
    MaxKey,
}

/// The class of a value, least first: values of different classes compare by it.
///
/// MongoDB manual, "Comparison/Sort Order".
#[derive(Clone, Copy, Debug, PartialEq, Eq, PartialOrd, Ord)]
pub enum Class {
    MinKey,
    Undefined,
    Null,
    /// Int32 and Int64.
    Number,
    /// Strings and symbols.
    Text,
    Doc,
    Array,
    Binary,
    ObjectId,
    Bool,
    Date,
    Timestamp,
    Regex,
    DbPointer,
    Code,
    CodeScope,
    MaxKey,
}

impl Value {
    /// Its kind.
    pub fn kind(&self) -> Kind
        ensures { result ≡ kind_of (tree_of self.now) }
    {
        match self {
            Value::MinKey => Kind::MinKey,
            Value::Undefined => Kind::Undefined,
            Value::Null => Kind::Null,
            Value::Int32(_) => Kind::Int32,
            Value::Int64(_) => Kind::Int64,
            Value::Text(_) => Kind::Text,
            Value::Symbol(_) => Kind::Symbol,
            Value::Doc(_) => Kind::Doc,
            Value::Array(_) => Kind::Array,
            Value::Binary { .. } => Kind::Binary,
            Value::ObjectId(_) => Kind::ObjectId,
            Value::Bool(_) => Kind::Bool,
            Value::Date(_) => Kind::Date,
            Value::Timestamp { .. } => Kind::Timestamp,
            Value::Regex { .. } => Kind::Regex,
            Value::DbPointer { .. } => Kind::DbPointer,
            Value::Code(_) => Kind::Code,
            Value::CodeScope(_, _) => Kind::CodeScope,
            Value::MaxKey => Kind::MaxKey,
        }
    }

    /// The scalar, or the code of code with scope; None for a document and an array.
    pub fn scalar(&self) -> Option<Scalar<'_>>
        ensures { option_map view_of result ≡ leaf_of (tree_of self.now) }
    {
        Some(match self {
            Value::MinKey => Scalar::MinKey,
            Value::Undefined => Scalar::Undefined,
            Value::Null => Scalar::Null,
            Value::Int32(number) => Scalar::Int32(*number),
            Value::Int64(number) => Scalar::Int64(*number),
            Value::Text(text) => Scalar::Text(text.as_str()),
            Value::Symbol(text) => Scalar::Symbol(text.as_str()),
            Value::Doc(_) => return None,
            Value::Array(_) => return None,
            Value::Binary { subtype, payload } => Scalar::Binary {
                subtype: *subtype,
                payload,
            },
            Value::ObjectId(id) => Scalar::ObjectId(*id),
            Value::Bool(truth) => Scalar::Bool(*truth),
            Value::Date(milliseconds) => Scalar::Date(*milliseconds),
            &Value::Timestamp { seconds, increment } => Scalar::Timestamp { seconds, increment },
            Value::Regex { pattern, options } => Scalar::Regex { pattern, options },
            Value::DbPointer { space, id } => Scalar::DbPointer { space, id: *id },
            Value::Code(code) => Scalar::Code(code.as_str()),
            Value::CodeScope(code, _) => Scalar::CodeScope(code.as_str()),
            Value::MaxKey => Scalar::MaxKey,
        })
    }
}

/// A value in memory, as a node.
#[derive(Clone, Copy)]
pub enum Tree<'a> {
    Value(&'a Value),
    Doc(&'a Document),
}

/// The pairs of a document or the elements of an array in memory, from an index on.
#[derive(Clone, Copy)]
pub enum TreeParts<'a> {
    Pairs(&'a [(String, Value)]),
    Items(&'a [Value]),
}

/// The value of the first pair of that name.
fn first_in<'a>(document: &'a Document, name: &str) -> Option<Tree<'a>>
    ensures { option_map node_tree result ≡ first_of name.now (pairs document.now) }
{
    match document.first(name) {
        Some(value) => Some(Tree::Value(value)),
        None => None,
    }
}

/// The name and the value of the pair at an index.
fn pair_in<'a>(document: &'a Document, i: usize) -> (&'a str, Tree<'a>)
    requires { i < length (pairs document.now) }
    ensures { slice_get (pairs document.now) i ≡ Some (result.0.now, node_tree result.1) }
{
    let (name, value) = document.pair(i);
    (name, Tree::Value(value))
}

impl<'a> Reading for Tree<'a> {
    type Rest = TreeParts<'a>;

    ghost tree = { node_tree };

    ghost source = { λ _. [] };

    ghost remaining = { node_parts };

    ghost rest_source = { λ _. [] };

    fn kind(self) -> Kind {
        match self {
            Tree::Doc(_) => Kind::Doc,
            Tree::Value(value) => value.kind(),
        }
    }

    fn leaf(&self) -> Option<Scalar<'_>> {
        self.scalar()
    }

    fn scope(self) -> Option<Self> {
        match self {
            Tree::Value(Value::CodeScope(_, scope)) => Some(Tree::Doc(scope)),
            _ => None,
        }
    }

    fn len(self) -> usize {
        match self {
            Tree::Doc(document) => document.len(),
            Tree::Value(Value::Doc(document)) => document.len(),
            Tree::Value(Value::Array(items)) => items.len(),
            Tree::Value(_) => 0,
        }
    }

    fn field(&self, i: usize) -> (&str, Self) {
        self.pair(i)
    }

    fn element(self, i: usize) -> Self {
        match self {
            Tree::Value(Value::Array(items)) => Tree::Value(&items[i]),
            _ => unreachable!(),
        }
    }

    fn first(self, name: &str) -> Option<Self> {
        match self {
            Tree::Doc(document) => first_in(document, name),
            Tree::Value(Value::Doc(document)) => first_in(document, name),
            Tree::Value(_) => None,
        }
    }

    fn parts(self) -> TreeParts<'a> {
        match self {
            Tree::Doc(document) => TreeParts::Pairs(document.as_pairs()),
            Tree::Value(Value::Doc(document)) => TreeParts::Pairs(document.as_pairs()),
            Tree::Value(Value::Array(items)) => TreeParts::Items(items),
            Tree::Value(_) => unreachable!(),
        }
    }

    fn next<'r>(rest: &'r TreeParts<'a>) -> Option<(&'r str, Self, TreeParts<'a>)> {
        match rest {
            TreeParts::Pairs(pairs) => match pairs.split_first() {
                Some((pair, after)) => Some((
                    pair.0.as_str(),
                    Tree::Value(&pair.1),
                    TreeParts::Pairs(after),
                )),
                None => None,
            },
            TreeParts::Items(items) => match items.split_first() {
                Some((item, after)) => Some(("", Tree::Value(item), TreeParts::Items(after))),
                None => None,
            },
        }
    }
}

impl<'a> Node<'a> for Tree<'a> {
    fn scalar(self) -> Option<Scalar<'a>> {
        match self {
            Tree::Doc(_) => None,
            Tree::Value(value) => value.scalar(),
        }
    }

    fn pair(self, i: usize) -> (&'a str, Self) {
        match self {
            Tree::Doc(document) => pair_in(document, i),
            Tree::Value(Value::Doc(document)) => pair_in(document, i),
            Tree::Value(_) => unreachable!(),
        }
    }
}
