//! An index, and how it is built: the keys of all documents, sorted.

ghost use Rattle.std.specs.Prelude.{◌≡◌, ◌++◌, List, ℕ, Bool, true, false, not, map, length, nat_lt, count_by, IfOk, OnOk};
ghost use Rattle.std.specs.List.{All, list_any};
ghost use Rattle.bd_value.specs.Order.{equal};
ghost use Rattle.bd_bson_view.specs.Raw.{value_source, value_tree};
ghost use Rattle.bd_bson_dump.specs.Collection.{bytes_of, documents};
ghost use Rattle.bd_bson_dump.specs.declared.collection.Dump.{Dump};
ghost use Rattle.bd_path.specs.Key.{AreKeysOf, IsKeyOf, distinct, key_tree, key_trees};
ghost use Rattle.bd_path.specs.PathNames.{names_of};
ghost use Rattle.bd_index.specs.Entries.{KeyAt, entries_of, entry_cmp, is_multikey, keys_at};
ghost use Rattle.bd_index.specs.inside.Entries.{is_same_entry};
ghost use Rattle.bd_index.specs.IndexView.{IsIndexOf, KeepsDump, KeepsEntries, index_is_sparse, index_names, index_path};
ghost use Rattle.bd_index.specs.inside.IndexView.{IsFoundIn, found_entry};

use crate::entry::{Entry, FoundKey};
use bd_bson_dump::Dump;
use bd_bson_view::{At, RawValue};
use bd_index_prefix::{Prefix, compare_prefixes};
use bd_path::{Key, Path, all_key_nodes, compare_keys};
use bd_value::{NoMemory, Reading, compare_nodes};
use std::alloc::Global;
use std::cmp::Ordering;

/// The sorted keys of the documents of a dump on a path, each as its offset in the dump. It contains no key itself: it is read
/// together with the dump that it was built from.
#[derive(Drop)]
pub struct Index {
    pub(crate) path: Path,
    pub(crate) entries: Vec<Entry>,
    pub(crate) multikey: bool,
    pub(crate) sparse: bool,
}

impl Index {
    /// The index of a dump on a path: an entry for each key of each document. It fails only if memory runs out.
    pub fn build(alloc: Global, dump: &Dump, path: Path) -> Result<Index, NoMemory>
        ensures index { IfOk result (λ index. IsIndexOf dump.now index) }
        ensures path { IfOk result (λ index. index_path index ≡ path) }
        ensures sparse { IfOk result (λ index. index_is_sparse index ≡ false) }
    {
        let entries = entries_of(alloc, dump, &path, false)?;
        // Each document has a key.
        let multikey = entries.len() > dump.len() as usize;
        Ok(Index {
            path,
            entries,
            multikey,
            sparse: false,
        })
    }

    /// The same without an entry for a missing field. It is multikey if the other would be. It fails only if memory runs out.
    pub fn build_sparse(alloc: Global, dump: &Dump, path: Path) -> Result<Index, NoMemory>
        ensures index { IfOk result (λ index. IsIndexOf dump.now index) }
        ensures path { IfOk result (λ index. index_path index ≡ path) }
        ensures sparse { IfOk result (λ index. index_is_sparse index ≡ true) }
    {
        let entries = entries_of(alloc, dump, &path, true)?;
        let multikey = has_several(alloc, dump, &path)?;
        Ok(Index {
            path,
            entries,
            multikey,
            sparse: true,
        })
    }

    /// The path that it was built on. It takes no memory.
    pub fn path(&self) -> &Path
        ensures { result.now ≡ index_path self.now }
    {
        &self.path
    }

    /// Whether some document has two keys, those for missing fields included. It takes no memory.
    pub fn multikey(&self) -> bool
        ensures { (dump : Dump) → IsIndexOf dump self.now →
            result ≡ is_multikey (index_names self.now) (documents dump) }
    {
        self.multikey
    }

    /// Whether it was built without entries for missing fields. It takes no memory.
    pub fn sparse(&self) -> bool
        ensures { result ≡ index_is_sparse self.now }
    {
        self.sparse
    }

    /// The number of entries. It takes no memory.
    pub fn entries(&self) -> u64
        ensures { (dump : Dump) → IsIndexOf dump self.now →
            result ≡ length
            (entries_of (index_is_sparse self.now) (index_names self.now) (documents dump)) }
    {
        self.entries.len() as u64
    }
}

/// The sorted entries of the documents on a path; a sparse index has no null for a missing field. It fails only if memory
/// runs out.
fn entries_of(alloc: Global, dump: &Dump, path: &Path, sparse: bool) -> Result<Vec<Entry>, NoMemory>
    ensures { IfOk result (λ v. KeepsDump sparse (names_of path.now) dump.now v.items) }
{
    let mut found = find_all(alloc, dump, path, sparse)?;
    found.sort_by(compare_found)?;
    let entries = stored_entries(alloc, &found)?;
    Ok(entries)
}

/// The keys of all documents, each key once per document.
fn find_all<'a>(
    alloc: Global,
    dump: &'a Dump,
    path: &Path,
    sparse: bool,
) -> Result<Vec<FoundKey<'a>>, NoMemory>
    ensures found { IfOk result (λ v. (test : KeyAt → Bool) →
        count_by test (map found_entry v.items) ≡ count_by test
        (entries_of sparse (names_of path.now) (documents dump.now))) }
    ensures found_in { IfOk result (λ v. All (IsFoundIn (bytes_of dump.now)) v.items) }
{
    let mut found = Vec::new(alloc);
    let mut document_keys = Vec::new(alloc);
    for place in 0..dump.len() {
        let keys = all_key_nodes(alloc, dump.document(place).value(), path, sparse)?;
        add_document(dump, keys, place, &mut document_keys, &mut found)?;
    }
    Ok(found)
}

/// Appends the keys of one document, each once. They are sorted in a separate buffer, so that equal ones are side by side: an
/// array takes no quadratic time, and equal elements take the memory of one. The keys are freed before that, since one document may
/// have nearly all keys of a dump.
fn add_document<'a>(
    dump: &'a Dump,
    keys: Vec<Key<RawValue<'a>>>,
    place: u32,
    document_keys: &mut Vec<FoundKey<'a>>,
    found: &mut Vec<FoundKey<'a>>,
) -> Result<(), NoMemory>
    requires { AreKeysOf value_source (bytes_of dump.now) keys.items }
    ensures added { OnOk result ((test : KeyAt → Bool) →
        count_by test (map found_entry found.new.items)
        ≡ count_by test (map found_entry found.old.items
        ++ keys_at place (distinct (key_trees value_tree keys.entry.items)))) }
    ensures found_in { OnOk result (All (IsFoundIn (bytes_of dump.now)) found.old.items →
        All (IsFoundIn (bytes_of dump.now)) found.new.items) }
{
    document_keys.clear();
    add_found(dump, &keys, place, document_keys)?;
    drop(keys);
    document_keys.sort_by(compare_found)?;
    document_keys.dedup_by(|next, last| repeats(last, next));
    found.extend_from_slice(document_keys)?;
    Ok(())
}

/// Appends keys of one document.
fn add_found<'a>(
    dump: &'a Dump,
    keys: &[Key<RawValue<'a>>],
    place: u32,
    found: &mut Vec<FoundKey<'a>>,
) -> Result<(), NoMemory>
    requires { AreKeysOf value_source (bytes_of dump.now) keys.now }
    ensures added { OnOk result (map found_entry found.new.items
        ≡ map found_entry found.old.items ++ keys_at place (key_trees value_tree keys.now)) }
    ensures found_in { All (IsFoundIn (bytes_of dump.now)) found.old.items →
        All (IsFoundIn (bytes_of dump.now)) found.new.items }
{
    for key in keys {
        let key = in_dump(dump, *key);
        let prefix = Prefix::of(Key::Node(key));
        found.push(FoundKey { key, place, prefix })?;
    }
    Ok(())
}

/// The key as a value of the dump. A missing one takes no byte, so it is anywhere.
fn in_dump<'a>(dump: &'a Dump, key: Key<RawValue<'a>>) -> RawValue<'a>
    requires { IsKeyOf value_source (bytes_of dump.now) key }
    ensures tree { value_tree result ≡ key_tree value_tree key.entry }
    ensures same_source { value_source result ≡ bytes_of dump.now }
{
    match key {
        Key::Node(value) => value,
        Key::Null => dump.value_at(At::null()),
        Key::Undefined => dump.value_at(At::undefined()),
    }
}

/// The order of two: by key, then by place. The keys are read only if their prefixes do not decide it.
fn compare_found(a: &FoundKey<'_>, b: &FoundKey<'_>) -> Ordering
    ensures { result ≡ entry_cmp (found_entry a.now) (found_entry b.now) }
{
    let order = match compare_prefixes(a.prefix, b.prefix) {
        Some(order) => order,
        None => compare_nodes(a.key, b.key),
    };
    order.then(a.place.cmp(&b.place))
}

/// Whether the next is an equal key of the same document.
fn repeats(last: &FoundKey<'_>, next: &FoundKey<'_>) -> bool
    ensures { result ≡ is_same_entry (found_entry last.now) (found_entry next.now) }
{
    last.place == next.place && compare_nodes(last.key, next.key).is_eq()
}

/// The offsets of the keys.
fn stored_entries(alloc: Global, found: &[FoundKey<'_>]) -> Result<Vec<Entry>, NoMemory>
    ensures { (bytes : List ℕ) → All (IsFoundIn bytes) found.now →
        IfOk result (λ v. KeepsEntries bytes v.items (map found_entry found.now)) }
{
    let mut entries = Vec::with_capacity(alloc, found.len())?;
    for one in found {
        let key = one.key.at();
        let place = one.place;
        entries.push(Entry { key, place })?;
    }
    Ok(entries)
}

/// Whether some document has two keys on a path. It fails only if memory runs out.
fn has_several(alloc: Global, dump: &Dump, path: &Path) -> Result<bool, NoMemory>
    ensures { IfOk result (λ b. b ≡ is_multikey (names_of path.now) (documents dump.now)) }
{
    for i in 0..dump.len() {
        let keys = all_key_nodes(alloc, dump.document(i).value(), path, false)?;
        if are_several(&keys) {
            return Ok(true);
        }
    }
    Ok(false)
}

/// Whether two of the keys are not equal: then one is not equal to the first.
fn are_several<N: Reading>(keys: &[Key<N>]) -> bool
    ensures { result ≡ nat_lt 1 (length (distinct (key_trees N.tree keys.now))) }
{
    let Some((first, others)) = keys.split_first() else {
        return false;
    };
    differ(*first, others)
}

/// Whether one of the keys is not equal to the first.
fn differ<N: Reading>(first: Key<N>, others: &[Key<N>]) -> bool
    ensures { result
        ≡ list_any (λ k. not (equal (key_tree N.tree first) (key_tree N.tree k))) others.now }
{
    others.iter().any(|key| !compare_keys(first, *key).is_eq())
}
