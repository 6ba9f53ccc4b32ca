//! A value is a scalar, a document or an array; a document is a list of named values.
//!
//! In a tree a number is any whole number and a text any bytes. Those of an actual value fit, since it exists, but a proof
//! knows that only after a call: `value_fits`, `document_fits` and `node_fits` visit all of a value, and do nothing else.

ghost use Rattle.std.specs.Prelude.{◌≡◌, ◌<◌, ◌++◌, [], ◌∷◌, length, map, min, slice_get, Some, None, IfSome, IfNone};
ghost use Rattle.std.specs.Prelude.{IfOk, IsUtf8, OnOk, OnErr, string_bytes, IsTrue, ◌↔◌};
ghost use Rattle.bd_value.specs.Tree.{doc, fields_of, values_of, HasNoParts, leaf_of, first_of, depth as depth_in, fields_depth};
ghost use Rattle.bd_value.specs.View.{tree_of, pair_of, pairs, view_of};
ghost use Rattle.bd_value.specs.Fits.{AreBytes, Fits, FieldsFit, IsId, LeafFits, has_zero};

use crate::node::{Kind, Reading, Scalar, Tree};
use std::alloc::{AllocError, Global};

/// The only error of a call that allocates: memory ran out.
pub type NoMemory = AllocError;

/// A BSON value.
///
/// BSON 1.1, the productions of `element`.
#[cycle(value)]
#[derive(Drop)]
pub enum Value {
    /// Element 0xFF: below every other value.
    MinKey,
    /// Element 0x06: undefined, which BSON 1.1 deprecates.
    Undefined,
    /// Element 0x0A.
    Null,
    /// Element 0x10: a signed number of 32 bits.
    Int32(i32),
    /// Element 0x12: a signed number of 64 bits.
    Int64(i64),
    /// Element 0x02: UTF-8 text, which may contain U+0000.
    Text(String),
    /// Element 0x0E: a symbol, which BSON 1.1 deprecates.
    Symbol(String),
    /// Element 0x03: an embedded document.
    Doc(Document),
    /// Element 0x04: values in order; the names that the bytes of an array have are dropped.
    Array(Vec<Value>),
    /// Element 0x05: bytes of a subtype.
    Binary {
        subtype: u8,
        /// For subtype 02, the bytes after its inner length.
        payload: Vec<u8>,
    },
    /// Element 0x07: 12 bytes.
    ObjectId([u8; 12]),
    /// Element 0x08.
    Bool(bool),
    /// Element 0x09: milliseconds since 1970-01-01T00:00:00Z.
    Date(i64),
    /// Element 0x11: the high and the low half of a 64-bit number.
    Timestamp {
        seconds: u32,
        increment: u32,
    },
    /// Element 0x0B: a regular expression; if it was read from bytes, neither text contains U+0000.
    Regex {
        pattern: String,
        options: String,
    },
    /// Element 0x0C: a name and an id, which BSON 1.1 deprecates.
    DbPointer {
        space: String,
        id: [u8; 12],
    },
    /// Element 0x0D: JavaScript.
    Code(String),
    /// Element 0x0F: JavaScript with the document that gives its variables, which BSON 1.1 deprecates.
    CodeScope(String, Document),
    /// Element 0x7F: above every other value.
    MaxKey,
}

/// Names and values in order. A name may occur more than once.
///
/// BSON 1.1, `document`.
#[cycle(value)]
#[derive(Drop)]
pub struct Document {
    pairs: Vec<(String, Value)>,
}

impl Document {
    /// A document without pairs. It takes no memory; later pushes take theirs from `alloc`.
    pub fn new(alloc: Global) -> Document
        ensures { pairs result ≡ [] }
    {
        Document {
            pairs: Vec::new(alloc),
        }
    }

    /// Appends a pair.
    ///
    /// If memory runs out (`NoMemory`), the document is unchanged, and the name and the value are dropped.
    pub fn push(&mut self, name: String, value: Value) -> Result<(), NoMemory>
        ensures ok { OnOk result (pairs self.new
            ≡ pairs self.old ++ (string_bytes name, tree_of value) ∷ []) }
        ensures err { OnErr result (pairs self.new ≡ pairs self.old) }
    {
        self.pairs.push((name, value))?;
        Ok(())
    }

    /// The number of pairs.
    pub fn len(&self) -> usize
        ensures { result ≡ length (pairs self.now) }
    {
        self.pairs.len()
    }

    /// Whether it has no pair.
    pub fn is_empty(&self) -> bool
        ensures { IsTrue result ↔ (pairs self.now ≡ []) }
    {
        self.pairs.is_empty()
    }

    /// The pairs, in order.
    pub(crate) fn as_pairs(&self) -> &[(String, Value)]
        ensures { pairs self.now ≡ map pair_of result.now }
    {
        &self.pairs
    }

    /// The name and the value of the pair at an index, counted from 0.
    pub fn pair(&self, i: usize) -> (&str, &Value)
        requires { i < length (pairs self.now) }
        ensures { slice_get (pairs self.now) i ≡ Some (result.0.now, tree_of result.1.now) }
    {
        let (name, value) = &self.pairs[i];
        (name.as_str(), value)
    }

    /// The value of the first pair of that name; None if no pair has it. It takes no memory.
    pub fn first(&self, name: &str) -> Option<&Value>
        ensures found { IfSome result (λ v.
            first_of name.now (pairs self.now) ≡ Some (tree_of v.now)) }
        ensures none { IfNone result (first_of name.now (pairs self.now) ≡ None) }
    {
        for i in 0..self.len() {
            let (here, value) = self.pair(i);
            if here == name {
                return Some(value);
            }
        }
        None
    }
}

/// Whether a text contains U+0000: a `cstring` of BSON 1.1 cannot, since it ends there.
pub fn has_zero(text: &str) -> bool
    ensures { result ≡ has_zero text.now }
{
    text.as_bytes().contains(&0)
}

/// How deep documents and arrays nest: a document or an array is one deeper than the deepest value in it, code with scope one
/// deeper than its scope, and every other value has depth 0. The result saturates at 2^64 - 1.
pub fn depth(document: &Document) -> u64
    ensures { result ≡ min (depth_in (doc (fields_of (pairs document.now)))) 18446744073709551615 }
{
    depth_of(Tree::Doc(document))
}

/// The depth of any value.
#[cycle(nesting)]
pub fn depth_of<N: Reading>(node: N) -> u64
    ensures { result ≡ min (depth_in (N.tree node)) 18446744073709551615 }
{
    match node.kind() {
        Kind::Doc | Kind::Array => deepest::<N>(node.parts()).saturating_add(1),
        _ => match node.scope() {
            None => 0,
            Some(scope) => depth_of(scope).saturating_add(1),
        },
    }
}

/// The depth of the deepest of these values.
#[cycle(nesting)]
fn deepest<N: Reading>(values: N::Rest) -> u64
    ensures { result ≡ min (fields_depth (fields_of (N.remaining values))) 18446744073709551615 }
{
    let mut deepest = 0;
    let mut rest = values;
    while let Some((_, node, after)) = N::next(&rest) {
        deepest = depth_of(node).max(deepest);
        rest = after;
    }
    deepest
}

/// The value of a node, in memory. It fails only if memory runs out.
#[cycle(copying)]
pub fn to_value<N: Reading>(alloc: Global, node: N) -> Result<Value, NoMemory>
    ensures { IfOk result (λ v. tree_of v ≡ N.tree node) }
{
    match node.kind() {
        Kind::Doc => Ok(Value::Doc(to_document::<N>(alloc, node.parts())?)),
        Kind::Array => Ok(Value::Array(to_items::<N>(alloc, node.parts())?)),
        _ => leaf_value(alloc, node),
    }
}

/// A copy of a value. It fails only if memory runs out.
pub fn try_copy(alloc: Global, value: &Value) -> Result<Value, NoMemory>
    ensures { IfOk result (λ v. tree_of v ≡ tree_of value.now) }
{
    to_value(alloc, Tree::Value(value))
}

/// The document of these pairs, in memory. It fails only if memory runs out.
#[cycle(copying)]
pub fn to_document<N: Reading>(alloc: Global, fields: N::Rest) -> Result<Document, NoMemory>
    ensures { IfOk result (λ d. pairs d ≡ N.remaining fields) }
{
    let mut copied = Document::new(alloc);
    let mut rest = fields;
    while let Some((name, node, after)) = N::next(&rest) {
        let name = String::from_str(alloc, name)?;
        copied.push(name, to_value(alloc, node)?)?;
        rest = after;
    }
    Ok(copied)
}

/// The values of these elements.
#[cycle(copying)]
fn to_items<N: Reading>(alloc: Global, items: N::Rest) -> Result<Vec<Value>, NoMemory>
    ensures { IfOk result (λ v. map tree_of v.items ≡ values_of (N.remaining items)) }
{
    let mut copied = Vec::new(alloc);
    let mut rest = items;
    while let Some((_, node, after)) = N::next(&rest) {
        copied.push(to_value(alloc, node)?)?;
        rest = after;
    }
    Ok(copied)
}

/// A copy of a value that is neither a document nor an array.
#[cycle(copying)]
fn leaf_value<N: Reading>(alloc: Global, node: N) -> Result<Value, NoMemory>
    requires { HasNoParts (N.tree node) }
    ensures { IfOk result (λ v. tree_of v ≡ N.tree node) }
{
    let Some(scalar_leaf) = node.leaf() else {
        unreachable!()
    };
    let Some(scope) = node.scope() else {
        return scalar_value(alloc, scalar_leaf);
    };
    let Scalar::CodeScope(code) = scalar_leaf else {
        unreachable!()
    };
    let code = String::from_str(alloc, code)?;
    Ok(Value::CodeScope(code, to_document::<N>(alloc, scope.parts())?))
}

/// A scalar in memory. Code with scope gets an empty scope.
fn scalar_value(alloc: Global, scalar: Scalar<'_>) -> Result<Value, NoMemory>
    ensures { IfOk result (λ v. leaf_of (tree_of v) ≡ Some (view_of scalar.entry)) }
{
    Ok(match scalar {
        Scalar::MinKey => Value::MinKey,
        Scalar::Undefined => Value::Undefined,
        Scalar::Null => Value::Null,
        Scalar::Int32(number) => Value::Int32(number),
        Scalar::Int64(number) => Value::Int64(number),
        Scalar::Text(text) => Value::Text(String::from_str(alloc, text)?),
        Scalar::Symbol(text) => Value::Symbol(String::from_str(alloc, text)?),
        Scalar::Binary { subtype, payload } => Value::Binary {
            subtype,
            payload: Vec::from_slice(alloc, payload)?,
        },
        Scalar::ObjectId(id) => Value::ObjectId(id),
        Scalar::Bool(truth) => Value::Bool(truth),
        Scalar::Date(milliseconds) => Value::Date(milliseconds),
        Scalar::Timestamp { seconds, increment } => Value::Timestamp { seconds, increment },
        Scalar::Regex { pattern, options } => Value::Regex {
            pattern: String::from_str(alloc, pattern)?,
            options: String::from_str(alloc, options)?,
        },
        Scalar::DbPointer { space, id } => Value::DbPointer {
            space: String::from_str(alloc, space)?,
            id,
        },
        Scalar::Code(code) => Value::Code(String::from_str(alloc, code)?),
        Scalar::CodeScope(code) => {
            Value::CodeScope(String::from_str(alloc, code)?, Document::new(alloc))
        }
        Scalar::MaxKey => Value::MaxKey,
    })
}

/// Every value in memory fits: its numbers fit their types, an id has twelve bytes, and its texts and names are UTF-8.
///
/// ```
/// value_fits(value);
/// // A proof now has `Fits` of what `value` stands for.
/// ```
pub fn value_fits(value: &Value)
    ensures { Fits (tree_of value.now) }
{
    node_fits(Tree::Value(value));
}

/// Every document in memory fits, as every value does.
///
/// ```
/// document_fits(document);
/// write_doc(document, &mut text)?; // what a proof says of this text may take the facts as given
/// ```
pub fn document_fits(document: &Document)
    ensures { Fits (doc (fields_of (pairs document.now))) }
{
    node_fits(Tree::Doc(document));
}

/// The value of any node fits, in memory or in bytes.
///
/// ```
/// node_fits(check_document(bytes)?.value()); // of a view into bytes
/// ```
#[cycle(fits)]
pub fn node_fits<N: Reading>(node: N)
    ensures { Fits (N.tree node) }
{
    match node.kind() {
        Kind::Doc | Kind::Array => parts_fit::<N>(node.parts()),
        _ => {
            if let Some(scalar_leaf) = node.leaf() {
                scalar_fits(scalar_leaf);
            }
            if let Some(scope) = node.scope() {
                node_fits(scope);
            }
        }
    }
}

/// These names and values fit.
#[cycle(fits)]
fn parts_fit<N: Reading>(values: N::Rest)
    ensures { FieldsFit IsUtf8 (fields_of (N.remaining values)) }
{
    let mut rest = values;
    while let Some((_, node, after)) = N::next(&rest) {
        node_fits(node);
        rest = after;
    }
}

/// Every scalar fits.
fn scalar_fits(scalar: Scalar<'_>)
    ensures { LeafFits IsUtf8 (view_of scalar.entry) }
{
    match scalar {
        Scalar::Binary { payload, .. } => bytes_fit(payload),
        Scalar::ObjectId(id) => id_fits(id),
        Scalar::DbPointer { id, .. } => id_fits(id),
        _ => {}
    }
}

/// Every byte of a slice is at most 255.
fn bytes_fit(bytes: &[u8])
    ensures { AreBytes bytes.now }
{}

/// Every id is twelve bytes.
fn id_fits(id: [u8; 12])
    ensures { IsId id }
{}
