//! Laws of other numbers in the same order. The body of each is empty: its contract is the law.

ghost use Rattle.std.specs.Prelude.{Bool, List, Ok, false, ◌≡◌, map, option_map, ℕ, ℤ};
ghost use Rattle.std.specs.List.{list_any};
ghost use Rattle.bd_value.specs.Order.{cmp};
ghost use Rattle.bd_value.specs.Tree.{Doc, Tree};
ghost use Rattle.bd_path.specs.{Key.indexed_keys, Reach.Names, Reach.is_index, Reach.reach, Sort.SortPath, Sort.sort_cmp};
ghost use Rattle.bd_query_filter.specs.{Filter.Filter, FilterMatch.matches, FilterOf.filter_of, FilterOf.read_as};
ghost use Rattle.bd_bson_dump.specs.Collection.{documents_at};
ghost use Rattle.bd_cursor_request.specs.Refused.{then_part};
ghost use Rattle.bd_cursor_request.specs.Request.{Request, request_of, request_text};
ghost use Rattle.bd_cursor_sort.specs.Selection.{query_to};
ghost use Rattle.bd_wide_order.specs.Pages.{HaveOneAnswer};
ghost use Rattle.bd_wide_order.specs.Query.{RequestNeeds, renumber_query, renumber_request};
ghost use Rattle.bd_wide_order.specs.Ranks.{table_codes};
ghost use Rattle.bd_wide_order.specs.Renumber.{KeepOrder, FilterNeeds, Codes, DocumentsAreOf, IsOf, PassOverIndexes};
ghost use Rattle.bd_wide_order.specs.Renumber.{ReadsAlike, SortsReadAlike, below, renumber, renumber_documents, renumber_filter};

/// If each number in documents, and in a filter, is replaced by another, and at each path a number of documents has the same order
/// beside any number: then a value of a document has the same order beside any value, a path reaches the same in documents, they
/// have the same keys, sorts order them alike, and the filter matches the same. The numbers of the filter may be any numbers.
#[tactic(auto, using(crate::proofs::OrderLemmas::order_stays, crate::proofs::ReachLemmas::reach_stays, crate::proofs::ReachLemmas::keys_stay, crate::proofs::ReachLemmas::sorts_stay, crate::proofs::MatchLemmas::match_stays))]
pub fn numbers_matter_by_order()
    ensures order { (c : Codes) → KeepOrder c → (a b : Tree) → IsOf c a →
        cmp (renumber c a) (renumber c b) ≡ cmp a b }
    ensures reach { (c : Codes) (path : Names) → ReadsAlike c path → (t : Tree) →
        reach (renumber c t) path ≡ map (option_map (renumber (below path c))) (reach t path) }
    ensures keys { (c : Codes) → KeepOrder c → (path : Names) → ReadsAlike c path →
        (sparse : Bool) (t : Tree) → IsOf c t → indexed_keys sparse (renumber c t) path
        ≡ map (renumber (below path c)) (indexed_keys sparse t path) }
    ensures sorts { (c : Codes) → KeepOrder c → (ss : List SortPath) → SortsReadAlike c ss →
        (a b : Tree) → IsOf c a → IsOf c b →
        sort_cmp ss (renumber c a) (renumber c b) ≡ sort_cmp ss a b }
    ensures matching { (c : Codes) → KeepOrder c → (f : Filter) → FilterNeeds c f →
        (t : Tree) → IsOf c t → matches (renumber_filter c f) (renumber c t) ≡ matches f t }
{}

/// A path reads alike if none of its names is an index, and each path does if no index leads to other codes: so if all numbers
/// have the same code.
#[tactic(auto, using(crate::proofs::ReachLemmas::passing_over, crate::proofs::ReachLemmas::without_indexes))]
pub fn paths_read_alike()
    ensures without_indexes { (c : Codes) (path : Names) → list_any is_index path ≡ false →
        ReadsAlike c path }
    ensures passing_over { (c : Codes) → PassOverIndexes c → (path : Names) → ReadsAlike c path }
{}

/// A query in which each value that it compares with is renumbered means the renumbered filter, or it is refused for the same
/// reason and at the same place as the query. The same is true of a request.
#[tactic(auto, using(crate::proofs::QueryLemmas::query_read, crate::proofs::QueryLemmas::request_read))]
pub fn queries_are_renumbered()
    ensures filter { (c : Codes) (query : Doc) →
        filter_of (renumber_query c query) ≡ read_as (renumber_filter c) (filter_of query) }
    ensures request { (c : Codes) (query sort : Doc) (skip limit : ℕ) →
        let text = request_text (renumber_query c query) sort skip limit in
        request_of (renumber_query c query) sort skip limit
        ≡ then_part (request_of query sort skip limit) (λ r. Ok (renumber_request c text r)) }
{}

/// A renumbered request to renumbered documents has the answer of the request to the documents: the same places, and at each
/// place the renumbered document. It does not matter which bytes spell the documents, nor which text the request has.
pub fn answers_stay()
    ensures answer { (c : Codes) → KeepOrder c → (r : Request) → RequestNeeds c r →
        (ds : List Doc) → DocumentsAreOf c ds → (bytes new text : List ℕ) →
        HaveOneAnswer (query_to new (renumber_documents c ds) (renumber_request c text r))
        (query_to bytes ds r) }
    ensures documents { (c : Codes) (ds : List Doc) (places : List ℕ) →
        documents_at (renumber_documents c ds) places
        ≡ renumber_documents c (documents_at ds places) }
{}

/// Over documents whose numbers are all in a table, with the rank in the table in place of each number, also in the request,
/// a request has its answer by value. The numbers of the request may be any numbers, and every path and every type may be asked for.
pub fn ranked_dumps_answer_by_value()
    ensures { (table : List ℤ) (r : Request) → let c = table_codes table in
        (ds : List Doc) → DocumentsAreOf c ds → (bytes new text : List ℕ) →
        HaveOneAnswer (query_to new (renumber_documents c ds) (renumber_request c text r))
        (query_to bytes ds r) }
{}
