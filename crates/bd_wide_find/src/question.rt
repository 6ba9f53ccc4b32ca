//! What the options of `find` ask of documents of all types.

ghost use Rattle.std.specs.Prelude.{◌≡◌, IfErr, IfOk, OnOk, Ok, true};
ghost use Rattle.bd_value.specs.View.{pairs};
ghost use Rattle.bd_cursor_request.specs.Request.{request_view};
ghost use Rattle.bd_cli_find.specs.Options.{fits_batch};
ghost use Rattle.bd_wide_substitute.specs.Both.{IsRead};
ghost use Rattle.bd_wide_find.specs.{Find.IsRefused, Find.IsRefusedText, Options.requested_of};
ghost use Rattle.bd_wide_find.specs.inside.Fault.{ReportsAs};

use crate::options::{read_search, text_message};
use bd_cli_args::FindOptions;
use bd_cli_find::{Search, SearchFault};
use bd_extjson_fault::JsonFaultKind;
use bd_value::{Reading, Tree, to_document};
use bd_wide_query::{WideQuery, read_query};
use std::alloc::Global;

/// A query of all types, and what is searched.
#[derive(Drop)]
pub(crate) struct Question {
    pub(crate) query: WideQuery,
    /// The search with an empty text for each double and decimal128 of the query.
    pub(crate) search: Search,
}

/// What the text of a query and the other options ask. Without a sort the documents are in file order.
pub(crate) fn read_question(
    alloc: Global,
    text: &[u8],
    options: &FindOptions,
) -> Result<Question, SearchFault>
    ensures query { IfOk result (λ q. IsRead text.now
        (pairs q.query.wholes) (pairs q.query.texts) q.query.numbers.items) }
    ensures search { IfOk result (λ q. requested_of options.now (pairs q.query.texts)
        ≡ Ok (request_view q.search.request, q.search.token)) }
    ensures fits { OnOk result (fits_batch options.now.batch ≡ true) }
    ensures fault { IfErr result (ReportsAs (IsRefused text.now options.now)) }
{
    let query = read_text(alloc, text)?;
    let copy = to_document::<Tree<'_>>(alloc, Tree::Doc(&query.texts).parts())?;
    let search = read_search(alloc, copy, options)?;
    Ok(Question { query, search })
}

/// The query in a text.
fn read_text(alloc: Global, text: &[u8]) -> Result<WideQuery, SearchFault>
    ensures query { IfOk result (λ q.
        IsRead text.now (pairs q.wholes) (pairs q.texts) q.numbers.items) }
    ensures fault { IfErr result (ReportsAs (IsRefusedText text.now)) }
{
    match read_query(alloc, text) {
        Ok(query) => Ok(query),
        Err(fault) => match fault.kind {
            JsonFaultKind::NoMemory => Err(SearchFault::NoMemory),
            _ => Err(SearchFault::Message(text_message(alloc, "query", text, fault)?)),
        },
    }
}
