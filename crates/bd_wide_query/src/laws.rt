//! Laws of filters beside NaN, and of `$type` by classes. The body of each is empty: its contract is the law.

ghost use Rattle.std.specs.Prelude.{◌≡◌, ◌≢◌, ℤ, ◌≤ℤ◌, IsTrue, List, None, Some};
ghost use Rattle.bd_value.specs.{Tree.Fields, Tree.Tree, View.kind_of, declared.node.Kind.Kind};
ghost use Rattle.bd_value.specs.declared.node.Kind.TheVariants.{Int32, Int64};
ghost use Rattle.bd_value.specs.Tree.{int64, leaf};
ghost use Rattle.bd_query_filter.specs.Filter.{Filter, compares};
ghost use Rattle.bd_query_filter.specs.FilterMatch.{accepts, is_of_type};
ghost use Rattle.bd_query_filter.specs.FilterOf.{operand_kinds};
ghost use Rattle.bd_query_filter.specs.declared.operand.Relation.{Relation};
ghost use Rattle.bd_wide_number.specs.Value.{nan};
ghost use Rattle.bd_wide_rank.specs.{Rank.is_among, Table.worths, Worth.value_worth};
ghost use Rattle.bd_wide_order.specs.Renumber.{renumber_filter};
ghost use Rattle.bd_wide_order.specs.Ranks.{table_codes};
ghost use Rattle.bd_wide_copy.specs.Classes.{in_class};
ghost use Rattle.bd_wide_copy.specs.declared.longs.Longs.{Longs};
ghost use Rattle.bd_wide_query.specs.Split.{third_class};
ghost use Rattle.bd_wide_query.specs.Types.{FieldsHaveOperand, element_type, longs_of, names_type, types_by_class};
ghost use Rattle.bd_wide_query.specs.declared.types.NumberType.{NumberType};
ghost use Rattle.bd_wide_query.specs.Nan.{beside_nan, coded_beside_nan, operator_beside_nan, relates_beside_nan};

use bd_wide_rank::Table;

/// A filter beside NaN and then with codes is the filter with codes and then beside the code of NaN.
pub fn renumbered_beside_nan(table: &Table)
    ensures { let ws = worths table.now in (f : Filter) →
        coded_beside_nan ws (renumber_filter (table_codes ws) f)
        ≡ renumber_filter (table_codes ws) (beside_nan ws f) }
{}

/// A number of a table passes a comparison beside NaN exactly if it is so related to the other number: by their order, and if one of
/// them is NaN, both are.
pub fn numbers_relate_beside_nan()
    ensures { (table : List ℤ) (r : Relation) (m n : ℤ) → IsTrue (is_among table m) →
        value_worth nan ≤ℤ n →
        accepts (operator_beside_nan table (value_worth nan) (compares r (leaf (int64 n))))
        (leaf (int64 m)) ≡ relates_beside_nan (value_worth nan) r m n }
{}

/// `$type` by classes is `$type` by types. Where none of a query needs a third class, each `$type` in it, by classes, is true of a number
/// in the class of its type exactly if it names that type. Of any other value it is true as before.
pub fn types_match_by_class()
    ensures numbers { (query : Fields) (operand : Tree) → third_class query ≡ None →
        FieldsHaveOperand query operand → let longs = longs_of query in (kinds : List Kind) →
        operand_kinds (types_by_class longs operand) ≡ Some kinds → (type : NumberType) (z : ℤ) →
        is_of_type kinds (leaf (in_class longs (element_type type) z)) ≡ names_type type operand }
    ensures others { (longs : Longs) (operand : Tree) (kinds classed : List Kind) →
        operand_kinds operand ≡ Some kinds →
        operand_kinds (types_by_class longs operand) ≡ Some classed →
        (t : Tree) → kind_of t ≢ Int32 → kind_of t ≢ Int64 →
        is_of_type classed t ≡ is_of_type kinds t }
    ensures taken { (longs : Longs) (operand : Tree) (kinds : List Kind) →
        operand_kinds operand ≡ Some kinds →
        (classed : List Kind) × (operand_kinds (types_by_class longs operand) ≡ Some classed) }
{}
