//! What a query and the options request of documents of all types, and the messages for their texts.

ghost use Rattle.std.specs.Prelude.{◌≡◌, IfErr, IfOk, OnOk, Ok, option_map, string_bytes, true};
ghost use Rattle.bd_value.specs.View.{pairs};
ghost use Rattle.bd_path.specs.PathNames.{path_text};
ghost use Rattle.bd_cursor_request.specs.Request.{request_view};
ghost use Rattle.bd_cli_find.specs.Options.{ReportsSearchFault, fits_batch};
ghost use Rattle.bd_wide_find.specs.Options.{advised_text, requested_of, sort_in};

use bd_cli_args::FindOptions;
use bd_cli_find::{Search, SearchFault, json_message, search_of};
use bd_extjson::read_doc;
use bd_extjson_fault::{JsonFault, JsonFaultKind};
use bd_value::{Document, NoMemory};
use bd_wide_advice::advice_at;
use std::alloc::Global;

/// What a query requests with the other options of `find`. The text of the query in the options is not read.
pub(crate) fn read_search(
    alloc: Global,
    query: Document,
    options: &FindOptions,
) -> Result<Search, SearchFault>
    ensures search { IfOk result (λ s.
        requested_of options.now (pairs query) ≡ Ok (request_view s.request, s.token)) }
    ensures fits { OnOk result (fits_batch options.now.batch ≡ true) }
    ensures index { IfOk result (λ s. option_map path_text s.index ≡ options.now.index) }
    ensures fault { IfErr result (ReportsSearchFault (requested_of options.now (pairs query))) }
{
    let sort = read_sort(alloc, &options.sort)?;
    search_of(alloc, query, sort, options)
}

/// The document of a sort; without a text it has no pairs.
fn read_sort(alloc: Global, text: &Option<String>) -> Result<Document, SearchFault>
    ensures document { IfOk result (λ d.
        sort_in (option_map string_bytes text.now) ≡ Ok (pairs d)) }
    ensures fault { IfErr result
        (ReportsSearchFault (sort_in (option_map string_bytes text.now))) }
{
    let Some(text) = text else {
        return Ok(Document::new(alloc));
    };
    match read_doc(alloc, text.as_bytes()) {
        Ok(document) => Ok(document),
        Err(fault) => match fault.kind {
            JsonFaultKind::NoMemory => Err(SearchFault::NoMemory),
            _ => Err(SearchFault::Message(text_message(alloc, "sort", text.as_bytes(), fault)?)),
        },
    }
}

/// The message for a text that is refused, after the name of its option: where, why, and what to write instead, if that is known.
pub(crate) fn text_message(
    alloc: Global,
    name: &str,
    text: &[u8],
    fault: JsonFault,
) -> Result<String, NoMemory>
    ensures { IfOk result (λ s. string_bytes s ≡ advised_text name.now text.now fault) }
{
    let mut message = json_message(alloc, name, fault)?;
    if let Some(advice) = advice_at(text, fault) {
        message.push_str("; ")?;
        message.push_str(advice)?;
    }
    Ok(message)
}
