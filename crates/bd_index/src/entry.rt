//! The entries of an index, as it stores them and as they were found.

ghost use Rattle.std.specs.Prelude.{◌≡◌};
ghost use Rattle.bd_bson_view.specs.Raw.{value_tree};
ghost use Rattle.bd_index_prefix.specs.Prefix.{prefix_of};

use bd_bson_view::{At, RawValue};
use bd_index_prefix::Prefix;

/// The offset of a key of a document in the dump, and the document's place. A null or an undefined for something missing has the
/// offset 0: it takes no byte, so any bytes have one there.
#[derive(Clone, Copy)]
pub(crate) struct Entry {
    pub key: At,
    pub place: u32,
}

/// A key of a document as a value, the document's place, and the key's prefix, which decides most comparisons.
#[derive(Clone, Copy)]
pub(crate) struct FoundKey<'a> {
    pub key: RawValue<'a>,
    pub place: u32,
    pub prefix: Prefix,
    ghost prefixed: { prefix ≡ prefix_of (value_tree key) },
}
