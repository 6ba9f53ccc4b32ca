//! The keys of a document on a path, as nodes of the document.

ghost use Rattle.std.specs.Prelude.{◌≡◌, ◌∷◌, [], List, ℕ, Bool, true, false, map, IfOk, OnOk};
ghost use Rattle.std.specs.List.{list_any};
ghost use Rattle.bd_value.specs.View.{kind_of, tree_of};
ghost use Rattle.bd_value.specs.Order.{cmp, equal};
ghost use Rattle.bd_value.specs.Tree.{elements_in};
ghost use Rattle.bd_value.specs.Tree as trees;
ghost use Rattle.bd_value.specs.declared.node.Kind.TheVariants as kinds;
ghost use Rattle.bd_path.specs.Key.{AreKeysAt, AreKeysOf, IsKeyAt, IsKeyOf, distinct, end_keys, indexed_keys};
ghost use Rattle.bd_path.specs.inside.Key.{AddsKeys, AreKeysFrom, gives_new, with_key};
ghost use Rattle.bd_path.specs.Key.{is_empty_array, is_no_value, key_tree, key_trees, keys, missing_key, sparse_keys as sparse_keys_of};
ghost use Rattle.bd_path.specs.PathNames.{names_of};
ghost use Rattle.bd_path.specs.PathWalk.{Stops, stops};
ghost use Rattle.bd_path.specs.inside.PathWalk.{IsStopOf, TakesOrEnds, stop_tree};

use crate::path::Path;
use crate::path_walk::{Collector, Stop, path_walk};
use bd_value::{Kind, NoMemory, Reading, Tree, Value, compare_nodes, to_value};
use std::alloc::{AllocError, Global};
use std::cmp::Ordering;

/// A node of the document, or a value that is not in it.
#[derive(Clone, Copy)]
pub enum Key<N> {
    Node(N),
    /// For a missing field.
    Null,
    /// For the elements of an empty array.
    Undefined,
}

/// The keys of a document on a path, as nodes of the document: the elements of an array that the path reaches, every other
/// value itself, a null for a missing field. A key that equals an earlier one is dropped. It fails only if memory runs out.
pub fn key_nodes<N: Reading>(alloc: Global, doc: N, path: &Path) -> Result<Vec<Key<N>>, NoMemory>
    ensures trees { IfOk result (λ ks.
        key_trees N.tree ks.items ≡ keys (N.tree doc) (names_of path.now)) }
    ensures same_source { IfOk result (λ ks. AreKeysOf N.source (N.source doc) ks.items) }
    ensures at_stops { IfOk result (λ ks.
        AreKeysAt false (stops (N.tree doc) (names_of path.now)) ks.items) }
{
    let all = all_key_nodes(alloc, doc, path, false)?;
    distinct_keys(alloc, &all)
}

/// The same without a null for a missing field, as in a sparse index. It fails only if memory runs out.
pub fn sparse_keys<N: Reading>(alloc: Global, doc: N, path: &Path) -> Result<Vec<Key<N>>, NoMemory>
    ensures trees { IfOk result (λ ks.
        key_trees N.tree ks.items ≡ sparse_keys_of (N.tree doc) (names_of path.now)) }
    ensures same_source { IfOk result (λ ks. AreKeysOf N.source (N.source doc) ks.items) }
    ensures at_stops { IfOk result (λ ks.
        AreKeysAt true (stops (N.tree doc) (names_of path.now)) ks.items) }
{
    let all = all_key_nodes(alloc, doc, path, true)?;
    distinct_keys(alloc, &all)
}

/// The keys in order, with some equal ones, and without a null for a missing field if `sparse`. An index that sorts them then
/// finds equal ones side by side, while `key_nodes` removes them by linear search, O(n²). It fails only if memory runs out.
pub fn all_key_nodes<N: Reading>(
    alloc: Global,
    doc: N,
    path: &Path,
    sparse: bool,
) -> Result<Vec<Key<N>>, NoMemory>
    ensures distinct { IfOk result (λ ks. distinct (key_trees N.tree ks.items)
        ≡ indexed_keys sparse (N.tree doc) (names_of path.now)) }
    ensures same_source { IfOk result (λ ks. AreKeysOf N.source (N.source doc) ks.items) }
    ensures at_stops { IfOk result (λ ks.
        AreKeysAt sparse (stops (N.tree doc) (names_of path.now)) ks.items) }
{
    let mut all = Vec::new(alloc);
    let collector = KeyCollector { sparse };
    if !path_walk(&collector, &mut all, doc, path) {
        return Err(AllocError);
    }
    Ok(all)
}

/// The keys in memory. It fails only if memory runs out.
pub fn keys<N: Reading>(alloc: Global, doc: N, path: &Path) -> Result<Vec<Value>, NoMemory>
    ensures { IfOk result (λ ks. map tree_of ks.items ≡ keys (N.tree doc) (names_of path.now)) }
{
    let nodes = key_nodes(alloc, doc, path)?;
    let mut values = Vec::new(alloc);
    for key in &nodes {
        values.push(key_value(alloc, *key)?)?;
    }
    Ok(values)
}

/// Collects the keys. A key that equals the last is not appended: a path that repeats an index reaches a value, or a missing
/// field, once from each of its positions.
#[derive(Clone, Copy)]
struct KeyCollector {
    sparse: bool,
}

impl<N: Reading> Collector<N> for KeyCollector {
    type Found = Vec<Key<N>>;

    ghost amounts = { λ s keys bytes ss. AreKeysFrom N.tree N.source s.sparse keys.items bytes ss };

    ghost is_new = { λ s keys stop. gives_new s.sparse (key_trees N.tree keys.items) stop };

    ghost ends = { λ _ _. true };

    /// The path walk continues until memory runs out.
    fn take(&self, keys: &mut Vec<Key<N>>, stop: Stop<N>) -> bool
        ensures { (bytes : List ℕ) → IsStopOf N.source bytes stop →
            TakesOrEnds (λ ks. AreKeysFrom N.tree N.source self.now.sparse ks.items) (λ ks.
            gives_new self.now.sparse (key_trees N.tree ks.items)) (λ _.
            true) result bytes keys.old keys.new (stop_tree N.tree stop ∷ []) }
    {
        match stop {
            Stop::Value(node) => add_end(node, keys).is_ok(),
            _ => add_missing(self.sparse, keys).is_ok(),
        }
    }
}

/// Appends the key of a missing field, if any.
fn add_missing<N: Reading>(sparse: bool, keys: &mut Vec<Key<N>>) -> Result<(), NoMemory>
    ensures added { OnOk result
        (AddsKeys N.tree keys.old.items keys.new.items (missing_key sparse)) }
    ensures same_source { (bytes : List ℕ) →
        AreKeysOf N.source bytes keys.old.items → AreKeysOf N.source bytes keys.new.items }
    ensures at_stops { OnOk result ((ss : Stops) → list_any is_no_value ss ≡ true →
        AreKeysAt sparse ss keys.old.items → AreKeysAt sparse ss keys.new.items) }
{
    if sparse {
        return Ok(());
    }
    add_next(keys, Key::Null)
}

/// Appends a value, or the elements of an array.
fn add_end<N: Reading>(node: N, keys: &mut Vec<Key<N>>) -> Result<(), NoMemory>
    ensures added { OnOk result
        (AddsKeys N.tree keys.old.items keys.new.items (end_keys (N.tree node))) }
    ensures same_source { AreKeysOf N.source (N.source node) keys.old.items →
        AreKeysOf N.source (N.source node) keys.new.items }
    ensures at_stops { OnOk result ((sparse : Bool) (ss : Stops) →
        (is_empty_array (Stop.Value (N.tree node)) ≡ true → list_any is_empty_array ss ≡ true) →
        AreKeysAt sparse ss keys.old.items → AreKeysAt sparse ss keys.new.items) }
{
    let Kind::Array = node.kind() else {
        return add_next(keys, Key::Node(node));
    };
    let Some(_) = N::next(&node.parts()) else {
        return add_next(keys, Key::Undefined);
    };
    add_elements(node, keys)
}

/// Appends the elements of an array.
fn add_elements<N: Reading>(node: N, keys: &mut Vec<Key<N>>) -> Result<(), NoMemory>
    requires { kind_of (N.tree node) ≡ kinds.Array }
    ensures added { OnOk result
        (AddsKeys N.tree keys.old.items keys.new.items (elements_in (N.tree node))) }
    ensures same_source { AreKeysOf N.source (N.source node) keys.old.items →
        AreKeysOf N.source (N.source node) keys.new.items }
    ensures at_stops { (sparse : Bool) (ss : Stops) →
        AreKeysAt sparse ss keys.old.items → AreKeysAt sparse ss keys.new.items }
{
    let mut remaining = node.parts();
    while let Some(next) = N::next(&remaining) {
        add_next(keys, Key::Node(next.1))?;
        remaining = next.2;
    }
    Ok(())
}

/// Appends a key, unless it equals the last.
fn add_next<N: Reading>(keys: &mut Vec<Key<N>>, key: Key<N>) -> Result<(), NoMemory>
    ensures added { OnOk result
        (AddsKeys N.tree keys.old.items keys.new.items (key_tree N.tree key ∷ [])) }
    ensures same_source { (bytes : List ℕ) → AreKeysOf N.source bytes keys.old.items →
        IsKeyOf N.source bytes key → AreKeysOf N.source bytes keys.new.items }
    ensures at_stops { (sparse : Bool) (ss : Stops) → AreKeysAt sparse ss keys.old.items →
        IsKeyAt sparse ss key → AreKeysAt sparse ss keys.new.items }
{
    match keys.last() {
        Some(last) if compare_keys(*last, key).is_eq() => Ok(()),
        _ => {
            keys.push(key)?;
            Ok(())
        }
    }
}

/// The keys, without one that equals an earlier one. Each is compared with those before it.
fn distinct_keys<N: Reading>(alloc: Global, all: &[Key<N>]) -> Result<Vec<Key<N>>, NoMemory>
    ensures trees { IfOk result (λ ks.
        key_trees N.tree ks.items ≡ distinct (key_trees N.tree all.now)) }
    ensures same_source { (bytes : List ℕ) →
        AreKeysOf N.source bytes all.now → IfOk result (λ ks. AreKeysOf N.source bytes ks.items) }
    ensures at_stops { (sparse : Bool) (ss : Stops) →
        AreKeysAt sparse ss all.now → IfOk result (λ ks. AreKeysAt sparse ss ks.items) }
{
    let mut keys = Vec::new(alloc);
    for key in all {
        add_key(&mut keys, *key)?;
    }
    Ok(keys)
}

/// Appends a key, unless it equals an earlier one.
fn add_key<N: Reading>(keys: &mut Vec<Key<N>>, key: Key<N>) -> Result<(), NoMemory>
    ensures added { OnOk result (key_trees N.tree keys.new.items
        ≡ with_key (key_trees N.tree keys.old.items) (key_tree N.tree key)) }
    ensures same_source { (bytes : List ℕ) → AreKeysOf N.source bytes keys.old.items →
        IsKeyOf N.source bytes key → AreKeysOf N.source bytes keys.new.items }
    ensures at_stops { (sparse : Bool) (ss : Stops) → AreKeysAt sparse ss keys.old.items →
        IsKeyAt sparse ss key → AreKeysAt sparse ss keys.new.items }
{
    if has_equal(keys, key) {
        return Ok(());
    }
    keys.push(key)?;
    Ok(())
}

/// Whether one of the keys equals the key.
fn has_equal<N: Reading>(keys: &[Key<N>], key: Key<N>) -> bool
    ensures { result ≡ list_any (λ k. equal (key_tree N.tree k) (key_tree N.tree key)) keys.now }
{
    keys.iter().any(|k| compare_keys(*k, key).is_eq())
}

/// The order of two keys. It takes no memory.
pub fn compare_keys<M: Reading, N: Reading>(a: Key<M>, b: Key<N>) -> Ordering
    ensures { result ≡ cmp (key_tree M.tree a) (key_tree N.tree b) }
{
    match b {
        Key::Node(node) => compare_to(a, node),
        Key::Null => compare_to(a, Tree::Value(&Value::Null)),
        Key::Undefined => compare_to(a, Tree::Value(&Value::Undefined)),
    }
}

/// The order of a key and a value.
fn compare_to<M: Reading, N: Reading>(a: Key<M>, b: N) -> Ordering
    ensures { result ≡ cmp (key_tree M.tree a) (N.tree b) }
{
    match a {
        Key::Node(node) => compare_nodes(node, b),
        Key::Null => compare_nodes(Tree::Value(&Value::Null), b),
        Key::Undefined => compare_nodes(Tree::Value(&Value::Undefined), b),
    }
}

/// A key in memory. It fails only if memory runs out.
pub fn key_value<N: Reading>(alloc: Global, key: Key<N>) -> Result<Value, NoMemory>
    ensures { IfOk result (λ v. tree_of v ≡ key_tree N.tree key) }
{
    match key {
        Key::Node(node) => to_value(alloc, node),
        Key::Null => Ok(Value::Null),
        Key::Undefined => Ok(Value::Undefined),
    }
}
