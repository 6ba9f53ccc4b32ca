//! A law of filters. Its body is empty: its contract is the law.

ghost use Rattle.std.specs.Prelude.{◌≡◌, Ok, Err};
ghost use Rattle.bd_value.specs.Tree.{Doc};
ghost use Rattle.bd_query_filter.specs.Fault.{Refusal};
ghost use Rattle.bd_query_filter.specs.Filter as filters;
ghost use Rattle.bd_query_filter.specs.FilterBad.{IsBadAt};
ghost use Rattle.bd_query_filter.specs.FilterOf.{filter_of};

/// A document is not a filter exactly if some pair or member of it breaks a rule.
pub fn bad_documents_alone_are_refused()
    ensures taken { (d : Doc) (f : filters.Filter) →
        filter_of d ≡ Ok f → (r : Refusal) → IsBadAt d r → ⊥ }
    ensures refused { (d : Doc) (r : Refusal) → filter_of d ≡ Err r → IsBadAt d r }
{}
