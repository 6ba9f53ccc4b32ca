//! The methods of documents, values and elements in their bytes. Only the copies take memory.

ghost use Rattle.std.specs.Prelude.{◌≡◌, ◌<◌, ◌≤◌, ◌↔◌, ℕ, List, [], length, slice_get, Some, option_map, IfOk, IfSome, IfNone, IsTrue};
ghost use Rattle.bd_value.specs.Limits.{longest_input};
ghost use Rattle.bd_value.specs.Tree.{Tree, leaf, null, undefined, leaf_of, first_of, AreParts, HasNoParts};
ghost use Rattle.bd_value.specs.View.{tree_of, pairs, view_of};
ghost use Rattle.bd_bson_view.specs.Spelling.{IsShort, LeafIsShort};
ghost use Rattle.bd_bson_view.specs.Raw.{value_tree, value_source, value_start, document_pairs, document_source, remaining_pairs, elements_source};
ghost use Rattle.bd_bson_view.specs.Sound.{IsAt, IsPlace};
ghost use Rattle.bd_bson_view.specs.inside.Contents.{HasContents};

use crate::raw::{Elements, RawDoc, RawValue};
use crate::raw_parts as parts;
use bd_value::{Document, Kind, NoMemory, Node, Reading, Scalar, Value, to_document, to_value};
use std::alloc::Global;

impl<'a> RawDoc<'a> {
    /// The number of pairs. It scans all of them.
    pub fn len(self) -> usize
        ensures { result ≡ length (document_pairs self.entry) }
    {
        self.elements().count()
    }

    /// Whether it has no pair.
    pub fn is_empty(self) -> bool
        ensures { IsTrue result ↔ (document_pairs self.entry ≡ []) }
    {
        self.elements().next().is_none()
    }

    /// The name and the value of the pair at an index, counted from 0. It scans those before it.
    pub fn pair(self, i: usize) -> (&'a str, RawValue<'a>)
        requires { i < length (document_pairs self) }
        ensures pair { slice_get (document_pairs self.entry) i
            ≡ Some (result.0.now, value_tree result.1) }
        ensures same_source { value_source result.1 ≡ document_source self.entry }
        ensures short { IsShort result.0.now }
    {
        self.elements().nth(i)
    }

    /// The value of the first pair of that name; None if no pair has it.
    pub fn first(self, name: &str) -> Option<RawValue<'a>>
        ensures first { option_map value_tree result
            ≡ first_of name.now (document_pairs self.entry) }
        ensures same_source { IfSome result (λ v. value_source v ≡ document_source self.entry) }
    {
        self.elements().find(name)
    }

    /// The document in memory. It fails only if memory runs out.
    pub fn to_document(self, alloc: Global) -> Result<Document, NoMemory>
        ensures { IfOk result (λ d. pairs d ≡ document_pairs self.entry) }
    {
        to_document::<RawValue<'a>>(alloc, self.elements())
    }
}

impl<'a> RawValue<'a> {
    /// The elements of a document or an array; None for any other value.
    pub fn elements(self) -> Option<Elements<'a>>
        ensures some { IfSome result (λ x. AreParts (value_tree self.entry) (remaining_pairs x)) }
        ensures same_source { IfSome result (λ x. elements_source x ≡ value_source self.entry) }
        ensures none { IfNone result (HasNoParts (value_tree self.entry)) }
    {
        match self.contents() {
            Contents::Document(elements) => Some(elements),
            Contents::Array(elements) => Some(elements),
            Contents::Scalar(_) | Contents::CodeScope(_, _) => None,
        }
    }

    /// The value in memory. It fails only if memory runs out.
    pub fn to_value(self, alloc: Global) -> Result<Value, NoMemory>
        ensures { IfOk result (λ v. tree_of v ≡ value_tree self.entry) }
    {
        to_value(alloc, self)
    }

    /// Its type and offset in its bytes.
    pub fn at(self) -> At
        ensures meaning { IsAt (value_source self.entry) result (value_tree self.entry) }
        ensures start { result.start ≡ value_start self.entry }
    {
        At {
            kind: parts::type_byte(self.kind),
            start: self.start as u32,
        }
    }

    /// Its contents.
    #[inline(always)]
    pub(crate) fn contents(self) -> Contents<'a>
        ensures { HasContents (value_source self.entry) (value_tree self.entry) result }
    {
        let (bytes, at) = (self.bytes, self.start + 4);
        let (_, here) = bytes.split_at(self.start);
        match self.kind {
            Kind::Doc => Contents::Document(Elements { bytes, at }),
            Kind::Array => Contents::Array(Elements { bytes, at }),
            Kind::CodeScope => {
                let (_, code) = here.split_at(4);
                let scope = RawDoc {
                    bytes: self.bytes,
                    start: self.start + 8 + parts::number(code) as usize,
                };
                Contents::CodeScope(parts::text(code), scope)
            }
            _ => Contents::Scalar(parts::scalar(self.kind, here)),
        }
    }
}

impl<'a> Reading for RawValue<'a> {
    type Rest = Elements<'a>;

    ghost tree = { value_tree };

    ghost source = { value_source };

    ghost remaining = { remaining_pairs };

    ghost rest_source = { elements_source };

    #[inline(always)]
    fn kind(self) -> Kind {
        self.kind
    }

    #[inline(always)]
    fn leaf(&self) -> Option<Scalar<'_>> {
        self.scalar()
    }

    fn scope(self) -> Option<Self> {
        match self.contents() {
            Contents::CodeScope(_, scope) => Some(scope.value()),
            Contents::Scalar(_) | Contents::Document(_) | Contents::Array(_) => None,
        }
    }

    fn len(self) -> usize {
        match self.contents() {
            Contents::Document(elements) => elements.count(),
            Contents::Array(elements) => elements.count(),
            Contents::Scalar(_) | Contents::CodeScope(_, _) => 0,
        }
    }

    fn field(&self, i: usize) -> (&str, Self) {
        self.pair(i)
    }

    fn element(self, i: usize) -> Self {
        match self.contents() {
            Contents::Array(elements) => elements.nth(i).1,
            _ => unreachable!(),
        }
    }

    fn first(self, name: &str) -> Option<Self> {
        match self.contents() {
            Contents::Document(elements) => elements.find(name),
            _ => None,
        }
    }

    fn parts(self) -> Elements<'a> {
        match self.elements() {
            Some(elements) => elements,
            None => unreachable!(),
        }
    }

    #[inline(always)]
    fn next<'r>(rest: &'r Elements<'a>) -> Option<(&'r str, Self, Elements<'a>)> {
        rest.next()
    }
}

impl<'a> Node<'a> for RawValue<'a> {
    /// The scalar, or the code of code with scope; None for a document and an array. A text of it is no longer than a
    /// document may be.
    #[inline(always)]
    fn scalar(self) -> Option<Scalar<'a>>
        ensures scalar { option_map view_of result ≡ leaf_of (value_tree self.entry) }
        ensures short { IfSome result (λ s. LeafIsShort (view_of s)) }
    {
        match self.contents() {
            Contents::Scalar(scalar) => Some(scalar),
            Contents::CodeScope(code, _) => Some(Scalar::CodeScope(code)),
            Contents::Document(_) | Contents::Array(_) => None,
        }
    }

    fn pair(self, i: usize) -> (&'a str, Self) {
        match self.contents() {
            Contents::Document(elements) => elements.nth(i),
            _ => unreachable!(),
        }
    }
}

/// The contents of a value.
#[derive(Clone, Copy)]
pub enum Contents<'a> {
    /// It contains no value. The scalar is never `Scalar::CodeScope`.
    Scalar(Scalar<'a>),
    Document(Elements<'a>),
    Array(Elements<'a>),
    CodeScope(&'a str, RawDoc<'a>),
}

impl<'a> Elements<'a> {
    /// How many elements there are from here on. It scans all of them.
    pub fn count(self) -> usize
        ensures { result ≡ length (remaining_pairs self.entry) }
    {
        let mut rest = self;
        let mut n = 0;
        while let Some((_, _, after)) = rest.next() {
            rest = after;
            n += 1;
        }
        n
    }

    /// The name and the value of the element at an index, counted from 0. It scans those before it.
    pub fn nth(self, i: usize) -> (&'a str, RawValue<'a>)
        requires { i < length (remaining_pairs self) }
        ensures pair { slice_get (remaining_pairs self.entry) i
            ≡ Some (result.0.now, value_tree result.1) }
        ensures same_source { value_source result.1 ≡ elements_source self.entry }
        ensures short { IsShort result.0.now }
    {
        let mut rest = self;
        let mut k = 0;
        while k < i {
            match rest.next() {
                Some((_, _, after)) => rest = after,
                None => unreachable!(),
            }
            k += 1;
        }
        match rest.next() {
            Some((name, value, _)) => (name, value),
            None => unreachable!(),
        }
    }

    /// The value of the first element of that name; None if no element has it.
    pub fn find(self, name: &str) -> Option<RawValue<'a>>
        ensures first { option_map value_tree result
            ≡ first_of name.now (remaining_pairs self.entry) }
        ensures same_source { IfSome result (λ v. value_source v ≡ elements_source self.entry) }
    {
        let mut rest = self;
        while let Some((here, value, after)) = rest.next() {
            if here == name {
                return Some(value);
            }
            rest = after;
        }
        None
    }
}

/// Where a value is: its type byte, as in BSON 1.1, `element`, and the offset of its first byte. The type byte itself is
/// elsewhere, before the name of the element, and a whole document has none.
#[derive(Clone, Copy, Debug, PartialEq, Eq)]
pub struct At {
    pub kind: u8,
    pub start: u32,
}

impl At {
    /// The `At` of a null. It takes no byte, so there is one at the start of any bytes.
    pub fn null() -> At
        ensures { (bytes : List ℕ) → IsAt bytes result (leaf null) }
    {
        At {
            kind: 0x0A,
            start: 0,
        }
    }

    /// The `At` of an undefined. It takes no byte, so there is one at the start of any bytes.
    pub fn undefined() -> At
        ensures { (bytes : List ℕ) → IsAt bytes result (leaf undefined) }
    {
        At {
            kind: 0x06,
            start: 0,
        }
    }

    /// The value of that type at that offset of the bytes.
    pub fn value_in(self, bytes: &[u8]) -> RawValue<'_>
        requires short { length bytes.now ≤ longest_input }
        requires offset { IsPlace bytes.now self }
        ensures value { (tree : Tree) → IsAt bytes.now self tree → value_tree result ≡ tree }
        ensures same_source { value_source result ≡ bytes.now }
    {
        RawValue {
            bytes,
            start: self.start as usize,
            kind: parts::kind_of_byte(self.kind),
        }
    }
}
