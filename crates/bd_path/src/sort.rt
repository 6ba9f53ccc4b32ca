//! The key of a document in a sort, found without a list of keys, and the order of two documents by several paths.

ghost use Rattle.std.specs.Prelude.{◌≡◌, ◌⊎◌, ◌∷◌, [], List, ℕ, false, Some, option_map, IfOk};
ghost use Rattle.bd_value.specs.View.{tree_of};
ghost use Rattle.bd_path.specs.Key.{IsKeyAt, IsKeyOf, end_keys, key_tree};
ghost use Rattle.bd_path.specs.PathNames.{names_of};
ghost use Rattle.bd_path.specs.Sort.{dir_cmp, sort_cmp, sort_key, sort_paths};
ghost use Rattle.bd_path.specs.inside.Sort.{IsEarliestFrom, earlier_key, earliest_key, gives_earlier};
ghost use Rattle.bd_path.specs.PathWalk.{stops};
ghost use Rattle.bd_path.specs.inside.PathWalk.{IsStopOf, TakesOrEnds, stop_tree};

use crate::key::{Key, compare_keys, key_value};
use crate::path::Path;
use crate::path_walk::{Collector, Stop, path_walk};
use bd_value::{Kind, NoMemory, Reading, Value};
use std::alloc::Global;
use std::cmp::Ordering;

/// The direction of a sort: 1 or -1 in the MongoDB manual.
#[derive(Clone, Copy, Debug, PartialEq, Eq)]
pub enum Dir {
    /// The least key first.
    Up,
    /// The greatest key first.
    Down,
}

/// The order of two documents in a sort: the first path on which their sort keys differ decides. It takes no memory.
pub fn compare_sort<M: Reading, N: Reading>(a: M, b: N, sort: &[(Path, Dir)]) -> Ordering
    ensures { result ≡ sort_cmp (sort_paths sort.now) (M.tree a) (N.tree b) }
{
    for (path, dir) in sort {
        let first = sort_key_node(a, path, *dir);
        let second = sort_key_node(b, path, *dir);
        let order = compare_in(*dir, first, second);
        if order != Ordering::Equal {
            return order;
        }
    }
    Ordering::Equal
}

/// The sort key of a document: the least of its keys on the path, for `Dir::Down` the greatest. It is a node of the document,
/// or a value that is not in it. It takes no memory.
///
/// MongoDB manual, "Sort by an array field".
pub fn sort_key_node<N: Reading>(doc: N, path: &Path, dir: Dir) -> Key<N>
    ensures tree { key_tree N.tree result ≡ sort_key dir (N.tree doc) (names_of path.now) }
    ensures same_source { IsKeyOf N.source (N.source doc) result }
    ensures at_stops { IsKeyAt false (stops (N.tree doc) (names_of path.now)) result }
{
    let mut earliest = None;
    let collector = EarliestCollector { dir };
    let _whole = path_walk(&collector, &mut earliest, doc, path);
    match earliest {
        Some(key) => key,
        None => Key::Null,
    }
}

/// The same key in memory. It fails only if memory runs out.
pub fn sort_key<N: Reading>(alloc: Global, doc: N, path: &Path, dir: Dir) -> Result<Value, NoMemory>
    ensures { IfOk result (λ v. tree_of v ≡ sort_key dir (N.tree doc) (names_of path.now)) }
{
    key_value(alloc, sort_key_node(doc, path, dir))
}

/// The order of two keys in a direction. It takes no memory.
pub fn compare_in<M: Reading, N: Reading>(dir: Dir, a: Key<M>, b: Key<N>) -> Ordering
    ensures { result ≡ dir_cmp dir (key_tree M.tree a) (key_tree N.tree b) }
{
    let order = compare_keys(a, b);
    match dir {
        Dir::Up => order,
        Dir::Down => order.reverse(),
    }
}

/// Finds the earliest key; the first of equal ones.
#[derive(Clone, Copy)]
struct EarliestCollector {
    dir: Dir,
}

impl<N: Reading> Collector<N> for EarliestCollector {
    type Found = Option<Key<N>>;

    ghost amounts = { λ s key bytes ss. IsEarliestFrom N.tree N.source s.dir key bytes ss };

    ghost is_new = { λ s key stop. gives_earlier s.dir (option_map (key_tree N.tree) key) stop };

    ghost ends = { λ _ _. false };

    fn take(&self, earliest: &mut Option<Key<N>>, stop: Stop<N>) -> bool
        ensures { (bytes : List ℕ) → IsStopOf N.source bytes stop →
            TakesOrEnds (IsEarliestFrom N.tree N.source self.now.dir)
            (λ key. gives_earlier self.now.dir (option_map (key_tree N.tree) key))
            (λ _. false) result bytes earliest.old earliest.new (stop_tree N.tree stop ∷ []) }
    {
        let Stop::Value(node) = stop else {
            *earliest = Some(earlier(self.dir, *earliest, Key::Null));
            return true;
        };
        let key = earliest_end(node, self.dir);
        *earliest = Some(earlier(self.dir, *earliest, key));
        true
    }
}

/// A value, or the earliest of the elements of an array.
fn earliest_end<N: Reading>(node: N, dir: Dir) -> Key<N>
    ensures tree { Some (key_tree N.tree result) ≡ earliest_key dir (end_keys (N.tree node)) }
    ensures same_source { IsKeyOf N.source (N.source node) result }
    ensures at_stops { IsKeyAt false (Stop.Value (N.tree node) ∷ []) result }
{
    let Kind::Array = node.kind() else {
        return Key::Node(node);
    };
    let mut earliest = None;
    let mut remaining = node.parts();
    while let Some(next) = N::next(&remaining) {
        earliest = Some(earlier(dir, earliest, Key::Node(next.1)));
        remaining = next.2;
    }
    match earliest {
        Some(key) => key,
        None => Key::Undefined,
    }
}

/// The earlier of two keys; the first of two that are equal, the second if there is no first.
fn earlier<N: Reading>(dir: Dir, first: Option<Key<N>>, second: Key<N>) -> Key<N>
    ensures tree { Some (key_tree N.tree result)
        ≡ earlier_key dir (option_map (key_tree N.tree) first) (Some (key_tree N.tree second)) }
    ensures either { (Some result ≡ first) ⊎ (result ≡ second) }
{
    match first {
        Some(first) if !compare_in(dir, second, first).is_lt() => first,
        _ => second,
    }
}
