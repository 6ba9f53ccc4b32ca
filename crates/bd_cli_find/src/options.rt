//! What the arguments of `find` request, and the messages if they are refused.

ghost use Rattle.std.specs.Prelude.{◌≡◌, ◌≢◌, ◌++◌, IfErr, IfOk, Ok, OnErr, OnOk, option_map, string_bytes, true};
ghost use Rattle.bd_value.specs.View.{pairs};
ghost use Rattle.bd_io_device.specs.Devices.{WriteFailsWithin, TakesText, over};
ghost use Rattle.bd_path.specs.PathNames.{path_text};
ghost use Rattle.bd_query_filter.specs.Fault.{refusal_of};
ghost use Rattle.bd_cursor_request.specs.Refused.{reason_of, refused_words, error_as};
ghost use Rattle.bd_cursor_request.specs.Request.{named_index, request_of, request_view};
ghost use Rattle.bd_cli_scan.specs.Output.{error_line};
ghost use Rattle.bd_cli_find.specs.Options.{after_part, batch_part, document_in};
ghost use Rattle.bd_cli_find.specs.inside.Options.{ReportsReason};
ghost use Rattle.bd_cli_find.specs.Options.{ReportsRefusal, ReportsSearchFault, fits_batch, index_fault_text, json_fault_text, refusal_text, refused_option, requested_by};
ghost use Rattle.bd_cli_find.specs.Options.{requested_with, search_of};
ghost use Rattle.bd_cli_find.specs.declared.options.SearchFault.TheVariants.{NoMemory as no_memory};

use bd_cli_args::FindOptions;
use bd_cli_scan::Status;
use bd_cli_scan::output::{
    push_number, push_path, report_error, report_no_memory, status_of, write_pair,
};
use bd_cursor_request::{Refused, Request, Token};
use bd_extjson::read_doc;
use bd_extjson_fault::{JsonFault, JsonFaultKind};
use bd_io_device::{DeviceFault, Output, write_all};
use bd_path::{Path, PathFault};
use bd_query_filter::FilterFault;
use bd_value::{Document, GREATEST_COUNT, NoMemory};
use std::alloc::{AllocError, Global};

/// What `find` searches.
#[derive(Drop)]
pub struct Search {
    /// Which documents, in which order.
    pub request: Request,
    /// The path of the index for the search; without one each document is examined.
    pub index: Option<Path>,
    /// The token after which the answer resumes.
    pub token: Option<Token>,
}

/// Why there is no request.
#[derive(Debug, Drop)]
pub enum SearchFault {
    /// Memory ran out.
    NoMemory,
    /// A filter, a sort, a number or a token is refused.
    Refused(Refused),
    /// The message for a text: what is wrong, and where.
    Message(String),
}

impl From<AllocError> for SearchFault {
    ghost from_gives = { λ _ f. f ≡ no_memory };

    fn from(_error: AllocError) -> SearchFault {
        SearchFault::NoMemory
    }
}

/// What the options of `find` request. Without a query all documents match; without a sort they are in file order.
pub(crate) fn read_search(alloc: Global, options: &FindOptions) -> Result<Search, SearchFault>
    ensures search { IfOk result (λ s.
        requested_by options.now ≡ Ok (request_view s.request, s.token)) }
    ensures fits { OnOk result (fits_batch options.now.batch ≡ true) }
    ensures index { IfOk result (λ s. option_map path_text s.index ≡ options.now.index) }
    ensures fault { IfErr result (ReportsSearchFault (requested_by options.now)) }
{
    let query = read_text(alloc, "query", &options.query)?;
    read_search_with(alloc, query, options)
}

/// What a query requests with the other options of `find`. The text of the query in the options is not read.
fn read_search_with(
    alloc: Global,
    query: Document,
    options: &FindOptions,
) -> Result<Search, SearchFault>
    ensures search { IfOk result (λ s.
        requested_with options.now (pairs query) ≡ Ok (request_view s.request, s.token)) }
    ensures fits { OnOk result (fits_batch options.now.batch ≡ true) }
    ensures index { IfOk result (λ s. option_map path_text s.index ≡ options.now.index) }
    ensures fault { IfErr result (ReportsSearchFault (requested_with options.now (pairs query))) }
{
    let sort = read_text(alloc, "sort", &options.sort)?;
    search_of(alloc, query, sort, options)
}

/// What a query and a sort request, with the other options of `find`. Their texts in the options are not read.
pub fn search_of(
    alloc: Global,
    query: Document,
    sort: Document,
    options: &FindOptions,
) -> Result<Search, SearchFault>
    ensures search { IfOk result (λ s.
        search_of options.now (pairs query) (pairs sort) ≡ Ok (request_view s.request, s.token)) }
    ensures fits { OnOk result (fits_batch options.now.batch ≡ true) }
    ensures index { IfOk result (λ s. option_map path_text s.index ≡ options.now.index) }
    ensures fault { IfErr result
        (ReportsSearchFault (search_of options.now (pairs query) (pairs sort))) }
{
    let request = read_request(alloc, query, sort, options)?;
    check_batch(options.batch)?;
    let index = read_index(alloc, &options.index)?;
    let token = read_token(&options.after)?;
    Ok(Search {
        request,
        index,
        token,
    })
}

/// The document of a query or a sort, named by `name`; without a text it has no pairs.
fn read_text(alloc: Global, name: &str, text: &Option<String>) -> Result<Document, SearchFault>
    ensures document { IfOk result (λ d.
        document_in name.now (option_map string_bytes text.now) ≡ Ok (pairs d)) }
    ensures fault { IfErr result
        (ReportsSearchFault (document_in name.now (option_map string_bytes text.now))) }
{
    let Some(text) = text else {
        return Ok(Document::new(alloc));
    };
    match read_doc(alloc, text.as_bytes()) {
        Ok(document) => Ok(document),
        Err(fault) => match fault.kind {
            JsonFaultKind::NoMemory => Err(SearchFault::NoMemory),
            _ => Err(SearchFault::Message(json_message(alloc, name, fault)?)),
        },
    }
}

/// The message for a text that is no document, after the name of its option: the byte of the fault, but for `NotADocument`, and what
/// is wrong.
pub fn json_message(alloc: Global, name: &str, fault: JsonFault) -> Result<String, NoMemory>
    ensures { IfOk result (λ s. string_bytes s ≡ json_fault_text name.now fault) }
{
    let mut message = String::from_str(alloc, name)?;
    match fault.kind {
        // The text as a whole is no document.
        JsonFaultKind::NotADocument => {}
        _ => {
            message.push_str(": byte ")?;
            push_number(fault.at, &mut message)?;
        }
    }
    message.push_str(": ")?;
    message.push_str(fault.kind.words())?;
    Ok(message)
}

/// The request of a query and a sort, with the counts of the options.
fn read_request(
    alloc: Global,
    query: Document,
    sort: Document,
    options: &FindOptions,
) -> Result<Request, SearchFault>
    ensures request { IfOk result (λ r. request_of
        (pairs query) (pairs sort) options.now.skip options.now.limit ≡ Ok (request_view r)) }
    ensures fault { IfErr result
        (ReportsReason (request_of (pairs query) (pairs sort) options.now.skip options.now.limit)) }
{
    let (skip, limit) = (u64::from(options.skip), u64::from(options.limit));
    match Request::new(alloc, query, sort, skip, limit) {
        Ok(request) => Ok(request),
        Err(Refused::NoMemory) => Err(SearchFault::NoMemory),
        Err(refused) => Err(SearchFault::Refused(refused)),
    }
}

/// Refuses a batch size that is too great. It takes no memory.
fn check_batch(size: Option<u32>) -> Result<(), SearchFault>
    ensures fits { OnOk result (fits_batch size ≡ true) }
    ensures fault { IfErr result (ReportsReason (batch_part size)) }
    ensures known { IfErr result (λ fault. fault ≢ no_memory) }
{
    match size {
        Some(size) if u64::from(size) > GREATEST_COUNT => Err(SearchFault::Refused(Refused::Range)),
        _ => Ok(()),
    }
}

/// The path in the text of an index, if there is one.
fn read_index(alloc: Global, text: &Option<String>) -> Result<Option<Path>, SearchFault>
    ensures path { OnOk result (named_index (option_map string_bytes text.now) ≡ Ok tt) }
    ensures text { IfOk result (λ index.
        option_map path_text index ≡ option_map string_bytes text.now) }
    ensures fault { IfErr result (ReportsSearchFault
        (error_as index_fault_text (named_index (option_map string_bytes text.now)))) }
{
    let Some(text) = text else {
        return Ok(None);
    };
    match Path::parse(alloc, text) {
        Ok(path) => Ok(Some(path)),
        Err(PathFault::NoMemory) => Err(SearchFault::NoMemory),
        Err(fault) => Err(SearchFault::Message(option_message(alloc, "index: ", fault.words())?)),
    }
}

/// The token in a text, if there is one. It takes no memory.
fn read_token(text: &Option<String>) -> Result<Option<Token>, SearchFault>
    ensures token { IfOk result (λ token.
        after_part (option_map string_bytes text.now) ≡ Ok token) }
    ensures fault { IfErr result (ReportsReason (after_part (option_map string_bytes text.now))) }
    ensures known { IfErr result (λ fault. fault ≢ no_memory) }
{
    let Some(text) = text else {
        return Ok(None);
    };
    match Token::parse(text) {
        Ok(token) => Ok(Some(token)),
        Err(refusal) => Err(SearchFault::Refused(refusal)),
    }
}

/// The message of an option: its name, and what is wrong with it.
fn option_message(alloc: Global, option: &str, words: &str) -> Result<String, NoMemory>
    ensures { IfOk result (λ s. string_bytes s ≡ option.now ++ words.now) }
{
    let mut message = String::from_str(alloc, option)?;
    message.push_str(words)?;
    Ok(message)
}

/// The message for a document that is not a filter.
fn filter_message(alloc: Global, fault: &FilterFault) -> Result<String, NoMemory>
    ensures { IfOk result (λ s. string_bytes s ≡ refusal_text (refusal_of fault.now)) }
{
    let mut message = String::from_str(alloc, "query: place ")?;
    push_path(&fault.place, &mut message)?;
    message.push_str(": ")?;
    message.push_str(fault.kind.words())?;
    Ok(message)
}

/// Reports why a filter, a sort, a number or a token is refused. It takes memory only for the path of a filter's fault.
pub fn report_refused<E: Output>(
    alloc: Global,
    program: &str,
    refused: &Refused,
    err: &mut E,
) -> Status
    ensures { ReportsRefusal program.now (over E.state err.old err.new)
        (reason_of refused.now) result }
{
    match refused {
        Refused::BadFilter(fault) => match filter_message(alloc, fault) {
            Ok(message) => report_error(program, &message, err),
            Err(_) => report_no_memory(program, err),
        },
        refused => status_of(write_refused(program, refused, err), Status::Failed),
    }
}

/// Writes the line of a refusal.
#[tactic(auto, using(bd_cli_scan::proofs::OutputLemmas::taking))]
fn write_refused<E: Output>(
    program: &str,
    refused: &Refused,
    err: &mut E,
) -> Result<(), DeviceFault>
    ensures ok { OnOk result (TakesText (over E.state err.old err.new)
        (error_line program.now (refused_option refused.now ++ refused_words refused.now))) }
    ensures err { OnErr result (WriteFailsWithin (over E.state err.old err.new)
        (error_line program.now (refused_option refused.now ++ refused_words refused.now))) }
{
    write_pair(program, ": ", err)?;
    write_pair(refused_option(refused), refused.words(), err)?;
    write_all(err, b"\n")
}

/// The name of the refused option, if it is an option that is refused.
fn refused_option(refused: &Refused) -> &'static str
    ensures { result.now ≡ refused_option refused.now }
{
    match refused {
        Refused::BadSort => "sort: ",
        Refused::BadToken | Refused::ForeignToken | Refused::TokenPlace => "token: ",
        _ => "",
    }
}
