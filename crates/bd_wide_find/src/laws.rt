//! The laws of answers by value. The body of each is empty: its contract is the law.

ghost use Rattle.std.specs.Prelude.{Err, List, Ok, ◌≡◌, ℕ, ℤ};
ghost use Rattle.bd_value.specs.Tree.{Doc};
ghost use Rattle.bd_cursor_request.specs.Refused.{Reason};
ghost use Rattle.bd_cursor_request.specs.Request.{Request, request_of, request_text};
ghost use Rattle.bd_cursor_sort.specs.Selection.{query_to};
ghost use Rattle.bd_wide_copy.specs.{Copy.number_coded, Dump.coded_documents, Numbers.document_numbers};
ghost use Rattle.bd_wide_copy.specs.declared.longs.Longs.{Longs};
ghost use Rattle.bd_wide_number.specs.declared.number.Number.{Number};
ghost use Rattle.bd_wide_order.specs.{Query.renumber_request, Ranks.table_codes, Renumber.DocumentsAreOf};
ghost use Rattle.bd_wide_query.specs.Coded.{coded_query, valued_query};
ghost use Rattle.bd_wide_rank.specs.Rank.{HaveSame, code};

/// Over the copy of documents whose numbers are all in a table, with the rank in the table in place of each number, also in the
/// request, a request has its answer by value: it selects the same document numbers in the same order, and its tokens have the
/// same digest. Documents have their numbers in a table that has the same numbers. The request for a query with codes is the
/// renumbered request for the query by value, or it is refused for the same reason.
pub fn coded_copies_answer_by_value()
    ensures answer { (table : List ℤ) (r : Request) → let c = table_codes table in
        (ds : List Doc) → DocumentsAreOf c ds → (copy text : List ℕ) →
        query_to copy (coded_documents (number_coded (code table)) ds) (renumber_request c text r)
        ≡ query_to copy ds (record r { text = text }) }
    ensures numbers { (table : List ℤ) (ds : List Doc) → HaveSame table (document_numbers ds) →
        DocumentsAreOf (table_codes table) ds }
    ensures request { (table : List ℤ) (longs : Longs) (numbers : List Number) →
        (wholes texts sort : Doc) → (skip limit : ℕ) (r : Request) →
        request_of (valued_query longs numbers wholes texts) sort skip limit ≡ Ok r →
        let query = coded_query table longs numbers wholes texts in
        request_of query sort skip limit
        ≡ Ok (renumber_request (table_codes table) (request_text query sort skip limit) r) }
    ensures refused { (table : List ℤ) (longs : Longs) (numbers : List Number) →
        (wholes texts sort : Doc) → (skip limit : ℕ) (why : Reason) →
        request_of (valued_query longs numbers wholes texts) sort skip limit ≡ Err why →
        request_of (coded_query table longs numbers wholes texts) sort skip limit ≡ Err why }
{}
