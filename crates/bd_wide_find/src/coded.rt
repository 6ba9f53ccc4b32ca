//! The search over a copy of a dump, with a code in place of each number.

ghost use Rattle.std.specs.Prelude.{◌≡◌, ℕ, IfErr, IfOk, List, map, string_bytes};
ghost use Rattle.bd_value.specs.View.{pairs};
ghost use Rattle.bd_cursor_request.specs.Request as requests;
ghost use Rattle.bd_cursor_request.specs.Request.{request_view};
ghost use Rattle.bd_wide_rank.specs.Table.{worths};
ghost use Rattle.bd_wide_copy.specs.Dump.{AreDocuments, bytes_of};
ghost use Rattle.bd_wide_order.specs.{Query.renumber_request, Ranks.table_codes};
ghost use Rattle.bd_wide_query.specs.Nan.{beside_nan as beside_nan_of};
ghost use Rattle.bd_wide_find.specs.Find.{IsNoRequest, IsRefusedOver, types_message as types_message_of};
ghost use Rattle.bd_wide_find.specs.Coded.{CopiesDump, IsTableOf};
ghost use Rattle.bd_wide_find.specs.inside.Fault.{ReportsAs};
ghost use Rattle.bd_wide_find.specs.inside.Question.{SearchesBy, SearchesCopy};

use crate::options::read_search;
use bd_bson_dump::{Dump, index_dump};
use bd_cli_args::FindOptions;
use bd_cli_find::{Search, SearchFault, json_message};
use bd_cli_scan::output::push_path;
use bd_cursor_request::Request;
use bd_extjson_fault::{JsonFault, JsonFaultKind};
use bd_value::NoMemory;
use bd_wide_copy::{Longs, WideDump};
use bd_wide_query::{WideQuery, classes_of, code_query, exclude_nan, third_class};
use bd_wide_rank::Table;
use std::alloc::Global;

/// A search, and the copy that is searched.
#[derive(Drop)]
pub(crate) struct Coded {
    pub(crate) search: Search,
    pub(crate) copy: Dump,
}

/// The search of a query, and the copy of a dump, with the codes of the dump's numbers.
pub(crate) fn code(
    alloc: Global,
    options: &FindOptions,
    query: &WideQuery,
    dump: &WideDump,
) -> Result<Coded, SearchFault>
    requires { AreDocuments (bytes_of dump.now) }
    ensures coded { IfOk result (SearchesCopy options.now query.now.numbers.items
        (pairs query.now.wholes) (pairs query.now.texts) (bytes_of dump.now)) }
    ensures fault { IfErr result (ReportsAs (IsRefusedOver options.now query.now.numbers.items
        (pairs query.now.wholes) (pairs query.now.texts) (bytes_of dump.now))) }
{
    if let Some(split) = third_class(alloc, &query.texts)? {
        return Err(SearchFault::Message(types_message(alloc, &split.path)?));
    }
    let longs = classes_of(&query.texts);
    let table = table_of(alloc, dump)?;
    let search = coded_search(alloc, options, query, &table, longs)?;
    let copy = coded_copy(alloc, dump, &table, longs)?;
    Ok(Coded { search, copy })
}

/// The distinct numbers of a dump. It fails only if memory runs out.
pub fn table_of(alloc: Global, dump: &WideDump) -> Result<Table, NoMemory>
    requires { AreDocuments (bytes_of dump.now) }
    ensures { IfOk result (λ t. IsTableOf (bytes_of dump.now) (worths t)) }
{
    dump.has_few_numbers();
    let numbers = dump.numbers(alloc)?;
    match numbers.into_table() {
        Ok(table) => {
            table.codes_fit();
            Ok(table)
        }
        Err(_) => unreachable!(),
    }
}

/// The search of a query with codes.
fn coded_search(
    alloc: Global,
    options: &FindOptions,
    query: &WideQuery,
    table: &Table,
    longs: Longs,
) -> Result<Search, SearchFault>
    ensures search { IfOk result (SearchesBy options.now longs query.now.numbers.items
        (pairs query.now.wholes) (pairs query.now.texts) (worths table.now)) }
    ensures fault { IfErr result (ReportsAs (IsNoRequest options.now longs query.now.numbers.items
        (pairs query.now.wholes) (pairs query.now.texts) (worths table.now))) }
{
    let coded = code_query(
        alloc,
        &query.wholes,
        &query.texts,
        &query.numbers,
        table,
        longs,
    )?;
    let Some(coded) = coded else {
        return Err(SearchFault::Message(json_message(alloc, "query", NOT_A_DOCUMENT)?));
    };
    let Search {
        request,
        index,
        token,
    } = read_search(alloc, coded, options)?;
    let request = beside_nan(alloc, request, table)?;
    Ok(Search {
        request,
        index,
        token,
    })
}

/// The request with codes that is right beside NaN.
pub fn beside_nan(alloc: Global, request: Request, table: &Table) -> Result<Request, NoMemory>
    ensures { let codes = table_codes (worths table.now) in
        (r : requests.Request) (text : List ℕ) →
        request_view request ≡ renumber_request codes text r → IfOk result (λ request.
        request_view request ≡ renumber_request codes text
        (record r { filter = beside_nan_of (worths table.now) r.filter })) }
{
    let Request {
        filter,
        sort,
        skip,
        limit,
        text,
    } = request;
    let filter = exclude_nan(alloc, filter, table)?;
    Ok(Request {
        filter,
        sort,
        skip,
        limit,
        text,
    })
}

/// The message for a query that is no document with codes.
const NOT_A_DOCUMENT: JsonFault = JsonFault {
    kind: JsonFaultKind::NotADocument,
    at: 0,
};

/// The message for a query that has a `$type` at this place which needs a third class of numbers.
fn types_message(alloc: Global, place: &[String]) -> Result<String, NoMemory>
    ensures { IfOk result (λ s. string_bytes s ≡ types_message_of (map string_bytes place.now)) }
{
    let mut message = String::from_str(alloc, "query: place ")?;
    push_path(place, &mut message)?;
    message.push_str(": the types of numbers are not told apart here")?;
    Ok(message)
}

/// The copy of a dump, with the codes of the numbers of a table, by the classes of their types.
pub fn coded_copy(
    alloc: Global,
    dump: &WideDump,
    table: &Table,
    longs: Longs,
) -> Result<Dump, NoMemory>
    requires { AreDocuments (bytes_of dump.now) }
    ensures { IfOk result (CopiesDump longs (bytes_of dump.now) (worths table.now)) }
{
    table.codes_fit();
    let mut bytes = Vec::new(alloc);
    dump.write_copy(table, longs, &mut bytes)?;
    let copy = index_dump(alloc, bytes)?;
    Ok(copy)
}
