//! Laws of bounds. The body of each is empty: its contract is the law.

ghost use Rattle.std.specs.Prelude.{◌≡◌, ◌==◌, ◌||◌, Bool, IsFalse, IsTrue, false, is_some, length, true};
ghost use Rattle.std.specs.List.{list_any};
ghost use Rattle.std.specs.Ordering.{is_lt};
ghost use Rattle.bd_value.specs.Order.{cmp, equal};
ghost use Rattle.bd_value.specs.Tree as trees;
ghost use Rattle.bd_path.specs.Key.{keys, sparse_keys};
ghost use Rattle.bd_path.specs.Reach.{Names};
ghost use Rattle.bd_query_filter.specs.Filter as filters;
ghost use Rattle.bd_query_filter.specs.FilterMatch.{matches};
ghost use Rattle.bd_index_bounds.specs.Bounds.{bounds, is_inside};
ghost use Rattle.bd_index_bounds.specs.BoundsView.{is_before};
ghost use Rattle.bd_index_bounds.specs.declared.bounds.Cutoff as cutoffs;

/// A document that matches a filter has a key inside the filter's bounds, for every filter, path and document: in a multikey
/// index, and in any index if the document has one key. If null is outside the bounds, it has such a key that is not that of a
/// missing field. Equal keys are both inside, or both outside.
#[tactic(auto, using(crate::proofs::SoundLemmas::loses_no_match, crate::proofs::SoundLemmas::sparse_loses_no_match, crate::proofs::AlikeLemmas::same_bounds))]
pub fn bounds_lose_no_match()
    ensures keys { (f : filters.Filter) (path : Names) (multikey : Bool) (d : trees.Tree) →
        IsTrue (multikey || (length (keys d path) == 1)) → IsTrue (matches f d) →
        IsTrue (list_any (is_inside f path multikey) (keys d path)) }
    ensures sparse { (f : filters.Filter) (path : Names) (multikey : Bool) (d : trees.Tree) →
        IsTrue (multikey || (length (keys d path) == 1)) → IsTrue (matches f d) →
        IsFalse (is_inside f path multikey (trees.leaf trees.null)) →
        IsTrue (list_any (is_inside f path multikey) (sparse_keys d path)) }
    ensures alike { (f : filters.Filter) (path : Names) (multikey : Bool) (j k : trees.Tree) →
        IsTrue (equal j k) → is_inside f path multikey j ≡ is_inside f path multikey k }
{}

/// A filter is bounded for a multikey index exactly if it is bounded for another.
#[tactic(auto, using(crate::proofs::AlikeLemmas::alike_bounds))]
pub fn bounded_alike()
    ensures { (f : filters.Filter) (path : Names) →
        is_some (bounds f path true) ≡ is_some (bounds f path false) }
{}

/// A key that is not above a key before a cutoff is before it too, so a cutoff splits keys in order into two runs.
#[tactic(auto, using(crate::proofs::FilterBoundsLemmas::falls_once))]
pub fn cutoffs_fall_once()
    ensures { (cutoff : cutoffs.Cutoff) (j k : trees.Tree) →
        IsFalse (is_lt (cmp k j)) → IsTrue (is_before cutoff k) → IsTrue (is_before cutoff j) }
{}
