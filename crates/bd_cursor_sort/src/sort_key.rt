//! The key of a document on one path of a sort.

ghost use Rattle.std.specs.Prelude.{◌≡◌, ◌≢◌, ◌<◌, ◌∷◌, [], false, IfSome, length};
ghost use Rattle.bd_value.specs.View.{kind_of};
ghost use Rattle.bd_value.specs.declared.node.Kind.TheVariants as kinds;
ghost use Rattle.bd_value.specs.Order.{cmp};
ghost use Rattle.bd_value.specs.Tree.{Tree};
ghost use Rattle.bd_bson_view.specs.Raw.{value_tree};
ghost use Rattle.bd_bson_dump.specs.Collection.{documents, document_at};
ghost use Rattle.bd_index_prefix.specs.Prefix.{prefix_of, stored_key};
ghost use Rattle.bd_path.specs.Sort.{dir_cmp, sort_key};
ghost use Rattle.bd_path.specs.Key.{all_keys};
ghost use Rattle.bd_path.specs.PathNames.{names_of};

use bd_bson_dump::Dump;
use bd_bson_view::RawValue;
use bd_index_prefix::{Prefix, compare_prefixes};
use bd_path::{Dir, Key, Path, compare_in, sort_key_node};
use bd_value::{Kind, Reading};
use std::cmp::Ordering;

/// The key of a document on one path of a sort, and its prefix: the key is read only if two prefixes do not decide the order.
#[derive(Clone, Copy)]
pub(crate) struct SortKey<'d> {
    pub key: Key<RawValue<'d>>,
    prefix: Prefix,
    ghost prefixed: { prefix ≡ prefix_of (stored_key key) },
}

impl<'d> SortKey<'d> {
    /// The key of the document at a place.
    pub(crate) fn of(dump: &'d Dump, place: u32, path: &Path, dir: Dir) -> SortKey<'d>
        requires { place < length (documents dump.now) }
        ensures { stored_key result.key
            ≡ sort_key dir (document_at (documents dump.now) place) (names_of path.now) }
    {
        let key = key_of(dump.document(place).value(), path, dir);
        SortKey {
            key,
            prefix: Prefix::of(key),
        }
    }

    /// The order of two keys in a direction, by their prefixes if these decide it.
    pub(crate) fn compare(&self, other: &SortKey<'_>, dir: Dir) -> Ordering
        ensures { result ≡ dir_cmp dir (stored_key self.now.key) (stored_key other.now.key) }
    {
        match compare_prefixes(self.prefix, other.prefix) {
            Some(order) => in_direction(dir, order),
            None => compare_in(dir, self.key, other.key),
        }
    }
}

fn key_of<'d>(document: RawValue<'d>, path: &Path, dir: Dir) -> Key<RawValue<'d>>
    ensures { stored_key result ≡ sort_key dir (value_tree document.entry) (names_of path.now) }
{
    match plain_key(document, path) {
        Some(key) => key,
        None => sort_key_node(document, path, dir),
    }
}

/// The key on a path that meets no array: the one value that it leads to, or null.
fn plain_key<'d>(document: RawValue<'d>, path: &Path) -> Option<Key<RawValue<'d>>>
    ensures { IfSome result (λ k.
        all_keys false (value_tree document.entry) (names_of path.now) ≡ stored_key k ∷ []) }
{
    let mut value = document;
    for i in 0..path.len() {
        match value.first(path.component(i)) {
            Some(next) => value = next,
            None => return unless_array(value, Key::Null),
        }
    }
    unless_array(value, Key::Node(value))
}

/// A key, unless a value is an array.
fn unless_array<'d>(value: RawValue<'d>, key: Key<RawValue<'d>>) -> Option<Key<RawValue<'d>>>
    ensures { IfSome result (λ k. (k ≡ key.entry)
        × (kind_of (value_tree value.entry) ≢ kinds.Array)) }
{
    match value.kind() {
        Kind::Array => None,
        _ => Some(key),
    }
}

/// The order of two values in a direction.
fn in_direction(dir: Dir, order: Ordering) -> Ordering
    ensures { (x y : Tree) → order ≡ cmp x y → result ≡ dir_cmp dir x y }
{
    match dir {
        Dir::Up => order,
        Dir::Down => order.reverse(),
    }
}
