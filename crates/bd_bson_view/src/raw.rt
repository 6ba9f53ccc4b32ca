//! Values viewed in their bytes.

ghost use Rattle.std.specs.Prelude.{◌≡◌, ◌≤◌, ◌+◌, length, drop, IfSome, IfNone, [], ◌∷◌};
ghost use Rattle.bd_value.specs.Limits.{longest_input};
ghost use Rattle.bd_value.specs.Tree.{Doc, doc, fields_of};
ghost use Rattle.bd_value.specs.declared.node.Kind.TheVariants as kinds;
ghost use Rattle.bd_bson_view.specs.Spelling.{IsShort, IsDocument};
ghost use Rattle.bd_bson_view.specs.Sound.{Sound, Sound-prop, Remaining, Remaining-prop, meaning, extent};

use crate::raw_parts as parts;
use bd_value::Kind;

/// A value in bytes, which are known to spell one.
#[derive(Clone, Copy)]
pub struct RawValue<'a> {
    pub(crate) bytes: &'a [u8],
    pub(crate) start: usize,
    pub(crate) kind: Kind,
    ghost inside: { start ≤ length bytes.now },
    ghost short: { length bytes.now ≤ longest_input },
    ghost sound: { Sound kind
        (drop start bytes.now) } by { Sound-prop kind (drop start bytes.now) },
}

/// A document in bytes, which are known to spell one.
#[derive(Clone, Copy)]
pub struct RawDoc<'a> {
    pub(crate) bytes: &'a [u8],
    pub(crate) start: usize,
    ghost inside: { start ≤ length bytes.now },
    ghost short: { length bytes.now ≤ longest_input },
    ghost sound: { Sound kinds.Doc
        (drop start bytes.now) } by { Sound-prop kinds.Doc (drop start bytes.now) },
}

/// The elements of a document or an array, from an offset on.
#[derive(Clone, Copy)]
pub struct Elements<'a> {
    pub(crate) bytes: &'a [u8],
    pub(crate) at: usize,
    ghost short: { length bytes.now ≤ longest_input },
    ghost remaining: { Remaining (drop at bytes.now) } by { Remaining-prop (drop at bytes.now) },
}

impl<'a> RawDoc<'a> {
    ghost use Rattle.bd_bson_view.specs.Raw.{value_tree, value_source, document_tree, document_pairs, document_source, remaining_pairs, elements_source};

    /// All of the bytes, which are known to spell one document.
    pub fn whole(bytes: &'a [u8]) -> RawDoc<'a>
        requires { (d : Doc) × IsDocument d bytes.now }
        ensures document { IsDocument (document_pairs result) bytes.now }
        ensures same_source { document_source result ≡ bytes.now }
    {
        RawDoc { bytes, start: 0 }
    }

    /// The document at that offset of the bytes, which are known to spell one there.
    pub fn at(bytes: &'a [u8], start: usize) -> RawDoc<'a>
        requires short { length bytes.now ≤ longest_input }
        requires inside { start ≤ length bytes.now }
        requires sound { Sound kinds.Doc (drop start bytes.now) }
        ensures meaning { (sound : Sound kinds.Doc (drop start bytes.now)) →
            document_tree result ≡ meaning sound }
        ensures same_source { document_source result ≡ bytes.now }
    {
        RawDoc { bytes, start }
    }

    /// The document as a value.
    pub fn value(self) -> RawValue<'a>
        ensures value { value_tree result ≡ document_tree self.entry }
        ensures document { value_tree result ≡ doc (fields_of (document_pairs self.entry)) }
        ensures same_source { value_source result ≡ document_source self.entry }
    {
        RawValue {
            bytes: self.bytes,
            start: self.start,
            kind: Kind::Doc,
        }
    }

    /// The elements.
    pub fn elements(self) -> Elements<'a>
        ensures elements { remaining_pairs result ≡ document_pairs self.entry }
        ensures same_source { elements_source result ≡ document_source self.entry }
    {
        Elements {
            bytes: self.bytes,
            at: self.start + 4,
        }
    }
}

impl<'a> RawValue<'a> {
    ghost use Rattle.bd_bson_view.specs.Raw.{value_tree, value_source};

    /// The value of that kind at that offset of the bytes, which are known to spell one there.
    #[inline(always)]
    pub fn there(kind: Kind, bytes: &'a [u8], start: usize) -> RawValue<'a>
        requires short { length bytes.now ≤ longest_input }
        requires inside { start ≤ length bytes.now }
        requires sound { Sound kind (drop start bytes.now) }
        ensures meaning { (sound : Sound kind (drop start bytes.now)) →
            value_tree result ≡ meaning sound }
        ensures same_source { value_source result ≡ bytes.now }
    {
        RawValue { bytes, start, kind }
    }

    /// The offset after it.
    #[inline(always)]
    fn end(self) -> usize
        ensures { result ≡ self.entry.start + extent self.entry.sound }
    {
        let (_, here) = self.bytes.split_at(self.start);
        self.start + parts::size(self.kind, here)
    }
}

impl<'a> Elements<'a> {
    ghost use Rattle.bd_bson_view.specs.Raw.{value_tree, value_source, remaining_pairs, elements_source};

    /// The name and the value of the next element, and the elements after it; None at the end.
    #[inline(always)]
    pub fn next(self) -> Option<(&'a str, RawValue<'a>, Elements<'a>)>
        ensures some { IfSome result (λ x. remaining_pairs self.entry
            ≡ (x.0.now, value_tree x.1) ∷ remaining_pairs x.2) }
        ensures same_source { IfSome result (λ x. (value_source x.1 ≡ elements_source self.entry)
            × (elements_source x.2 ≡ elements_source self.entry)) }
        ensures short { IfSome result (λ x. IsShort x.0.now) }
        ensures none { IfNone result (remaining_pairs self.entry ≡ []) }
    {
        let byte = self.bytes[self.at];
        if byte == 0 {
            return None;
        }
        let (_, tail) = self.bytes.split_at(self.at + 1);
        let (name, _) = parts::name(tail);
        let value = RawValue {
            bytes: self.bytes,
            start: self.at + name.len() + 2,
            kind: parts::kind_of_byte(byte),
        };
        let after = Elements {
            bytes: self.bytes,
            at: value.end(),
        };
        Some((name, value, after))
    }
}
