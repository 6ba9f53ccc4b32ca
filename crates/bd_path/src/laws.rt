//! Laws of keys and of sorts. The body of each is empty: its contract is the law.

ghost use Rattle.std.specs.Prelude.{◌≡◌, ◌≢◌, [], false, None, is_some, Contains, List};
ghost use Rattle.std.specs.List.{list_any};
ghost use Rattle.bd_value.specs.Order.{equal};
ghost use Rattle.bd_value.specs.Tree as trees;
ghost use Rattle.bd_path.specs.Key.{keys, sparse_keys as sparse_keys_of};
ghost use Rattle.bd_path.specs.Reach.{Names, reach};
ghost use Rattle.std.specs.Cmp.{IsTotalOrder};
ghost use Rattle.bd_path.specs.Sort.{SortPath, sort_cmp};

/// Keys always exist: a document has a key on each path, null if the path misses a field or reaches no value. Call it where a
/// proof needs that.
pub fn keys_are_there()
    ensures some { (t : trees.Tree) (path : Names) → keys t path ≢ [] }
    ensures missing { (t : trees.Tree) (path : Names) →
        Contains (reach t path) None → Contains (keys t path) (trees.leaf trees.null) }
    ensures nothing { (t : trees.Tree) (path : Names) →
        list_any is_some (reach t path) ≡ false → Contains (keys t path) (trees.leaf trees.null) }
{}

/// A sparse index omits only nulls: a key that does not equal null is a sparse key.
pub fn sparse_keys_are_the_rest()
    ensures { (t : trees.Tree) (path : Names) (k : trees.Tree) → Contains (keys t path) k →
        equal k (trees.leaf trees.null) ≡ false → Contains (sparse_keys_of t path) k }
{}

/// A sort is a total order up to ties, for any number of paths.
pub fn sorts_order_all_documents()
    ensures { (sort : List SortPath) → IsTotalOrder (sort_cmp sort) }
{}
