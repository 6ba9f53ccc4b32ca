//! The prefix of a key, by which most keys compare.

ghost use Rattle.std.specs.Prelude.{◌≡◌, IfSome, List, is_some, option_map, ℕ};
ghost use Rattle.bd_value.specs.Order.{bytes_cmp, cmp};
ghost use Rattle.bd_value.specs.View.{view_of};
ghost use Rattle.bd_value.specs.Tree.{Tree};
ghost use Rattle.bd_index_prefix.specs.Prefix.{prefix_of, prefix_of_leaf, prefix_of_text, stored_key, decides_order, texts_decide};

use bd_bson_view::RawValue;
use bd_path::Key;
use bd_value::{Node, Scalar};
use std::cmp::Ordering;

/// How many bytes of a text are in its prefix.
const BYTES: usize = 15;

/// The length in the prefix of a text that has more bytes.
const LONG: u8 = 16;

/// The part of a key that decides most comparisons.
#[derive(Clone, Copy)]
pub enum Prefix {
    /// A string or a symbol.
    Text(TextPrefix),
    /// An int or a long.
    Number(i64),
    /// The milliseconds of a date.
    Date(i64),
    /// The bytes of an ObjectId.
    Id([u8; 12]),
    /// A value of another kind: nothing.
    Other,
}

/// The first bytes of a text, padded with zeros, and its length.
#[derive(Clone, Copy)]
pub struct TextPrefix {
    pub(crate) bytes: [u8; BYTES],
    /// 0 to 15 bytes, 16 for more.
    pub(crate) length: u8,
}

impl Prefix {
    /// The prefix of a key. It takes no memory.
    pub fn of(key: Key<RawValue<'_>>) -> Prefix
        ensures { result ≡ prefix_of (stored_key key.entry) }
    {
        match key {
            Key::Node(node) => prefix_of_leaf(node.scalar()),
            Key::Null => Prefix::Other,
            Key::Undefined => Prefix::Other,
        }
    }
}

/// The prefix of a value, by its scalar part.
fn prefix_of_leaf(scalar: Option<Scalar<'_>>) -> Prefix
    ensures { result ≡ prefix_of_leaf (option_map view_of scalar.entry) }
{
    match scalar {
        Some(Scalar::Text(text)) => Prefix::Text(prefix_of_text(text.as_bytes())),
        Some(Scalar::Symbol(text)) => Prefix::Text(prefix_of_text(text.as_bytes())),
        Some(Scalar::Int32(number)) => Prefix::Number(i64::from(number)),
        Some(Scalar::Int64(number)) => Prefix::Number(number),
        Some(Scalar::Date(milliseconds)) => Prefix::Date(milliseconds),
        Some(Scalar::ObjectId(id)) => Prefix::Id(id),
        _ => Prefix::Other,
    }
}

fn prefix_of_text(text: &[u8]) -> TextPrefix
    ensures { result ≡ prefix_of_text text.now }
{
    let mut bytes = [0; BYTES];
    let count = text.len().min(BYTES);
    bytes[..count].copy_from_slice(&text[..count]);
    TextPrefix {
        bytes,
        length: text.len().min(LONG as usize) as u8,
    }
}

/// The order of two keys by their prefixes. None if the prefixes do not decide it: for keys of different kinds, of a kind that
/// has no prefix, and for two longer texts that begin alike. It takes no memory.
pub fn compare_prefixes(a: Prefix, b: Prefix) -> Option<Ordering>
    ensures order { IfSome result (λ o. (x y : Tree) →
        a ≡ prefix_of x → b ≡ prefix_of y → o ≡ cmp x y) }
    ensures decides { is_some result ≡ decides_order a b }
{
    match (a, b) {
        (Prefix::Text(a), Prefix::Text(b)) => compare_texts(a, b),
        (Prefix::Number(a), Prefix::Number(b)) => Some(a.cmp(&b)),
        (Prefix::Date(a), Prefix::Date(b)) => Some(a.cmp(&b)),
        (Prefix::Id(a), Prefix::Id(b)) => Some(a.cmp(&b)),
        _ => None,
    }
}

/// The order of two texts by their prefixes. None if both are longer and their prefixes are equal.
fn compare_texts(a: TextPrefix, b: TextPrefix) -> Option<Ordering>
    ensures order { IfSome result (λ o. (s t : List ℕ) →
        a ≡ prefix_of_text s → b ≡ prefix_of_text t → o ≡ bytes_cmp s t) }
    ensures decides { is_some result ≡ texts_decide a b }
{
    let (first, second) = (a.bytes, b.bytes);
    match first.cmp(&second).then(a.length.cmp(&b.length)) {
        Ordering::Equal => (a.length < LONG).then_some(Ordering::Equal),
        unequal => Some(unequal),
    }
}
