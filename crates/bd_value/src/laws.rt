//! Laws of the comparison order. The body of each is empty: its contract is the law.

ghost use Rattle.std.specs.Prelude.{◌≡◌, ◌⊎◌, ℕ, ℤ, List};
ghost use Rattle.std.specs.{Cmp.IsTotalOrder, Ordering.int_cmp, Ordering.ordering_then};
ghost use Rattle.std.specs.declared.cmp.Ordering.TheVariants.{Less, Equal, Greater};
ghost use Rattle.bd_value.specs.Order.{bytes_cmp, class_of, class_cmp, cmp};
ghost use Rattle.bd_value.specs.Tree.{doc, field, Fields, int32, int64, leaf, no_fields};
ghost use Rattle.bd_value.specs.Tree as trees;

/// The order is total up to ties: it is antisymmetric and transitive, and equal values compare alike with every other.
pub fn orders_all_values()
    ensures { IsTotalOrder cmp }
{}

/// Equal values have one class.
pub fn equals_have_one_class()
    ensures { (a b : trees.Tree) → cmp a b ≡ Equal → class_of a ≡ class_of b }
{}

/// Numbers of 32 and of 64 bits compare by value.
pub fn numbers_are_one_line()
    ensures { (a b : trees.Tree) (m n : ℤ) → (a ≡ leaf (int32 m)) ⊎ (a ≡ leaf (int64 m)) →
        (b ≡ leaf (int32 n)) ⊎ (b ≡ leaf (int64 n)) → cmp a b ≡ int_cmp m n }
{}

/// Documents compare pair by pair: the class of the value, then the name, then the value; the one with no further pair is less.
pub fn pairs_compare_in_turn()
    ensures turns { (m n : List ℕ) (a b : trees.Tree) (fs gs : Fields) →
        cmp (doc (field m a fs)) (doc (field n b gs)) ≡ ordering_then (class_cmp a b)
        (ordering_then (bytes_cmp m n) (ordering_then (cmp a b) (cmp (doc fs) (doc gs)))) }
    ensures shorter { (name : List ℕ) (t : trees.Tree) (fs : Fields) →
        cmp (doc no_fields) (doc (field name t fs)) ≡ Less }
    ensures longer { (name : List ℕ) (t : trees.Tree) (fs : Fields) →
        cmp (doc (field name t fs)) (doc no_fields) ≡ Greater }
{}
