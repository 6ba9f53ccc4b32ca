//! A request to a dump: a filter, a sort and counts.

ghost use Rattle.std.specs.Prelude.{◌≡◌, ◌++◌, ◌≤◌, true, Err, IfErr, IfOk, None, Ok, OnOk, Some, codes, decimal, is_some};
ghost use Rattle.std.specs.List.{list_any};
ghost use Rattle.std.specs.Str.{bytes_eq};
ghost use Rattle.bd_value.specs.Tree.{int32, leaf};
ghost use Rattle.bd_value.specs.View.{pairs, tree_of};
ghost use Rattle.bd_path.specs.Sort.{sort_paths};
ghost use Rattle.bd_query_filter.specs.Filter.{filter_tree};
ghost use Rattle.bd_query_filter.specs.FilterOf.{filter_of};
ghost use Rattle.bd_value.specs.Limits.{greatest_count};
ghost use Rattle.bd_cursor_request.specs.Refused.{IsRefusedPart, bad_filter, error_as, reason_of};
ghost use Rattle.bd_cursor_request.specs.inside.Request.{rest_part};
ghost use Rattle.bd_cursor_request.specs.inside.Refused.{IsRefusedAs};
ghost use Rattle.bd_cursor_request.specs.Request.{are_distinct, direction_number, direction_of, pair_names, request_of, request_text, request_view};
ghost use Rattle.bd_cursor_request.specs.Request.{sort_of, sort_pairs, sort_written};
ghost use Rattle.bd_cursor_request.specs.declared.results.Refused.TheVariants.{BadSort, NoMemory};

use crate::results::Refused;
use bd_extjson_text::{write_doc, write_number};
use bd_path::{Dir, Path, PathFault};
use bd_query_filter::{Filter, FilterFaultKind, parse};
use bd_value::{Document, GREATEST_COUNT, NoMemory, Reading, Scalar, Tree, Value};
use std::alloc::Global;

/// A request to a dump: which documents, in which order, how many to skip, and how many to return at most.
#[derive(Drop)]
pub struct Request {
    /// The documents that match.
    pub filter: Filter,
    /// The paths by which they are sorted, the first one first; empty for file order.
    pub sort: Vec<(Path, Dir)>,
    /// How many are skipped: 0 to 2,147,483,647.
    pub skip: u64,
    /// How many are returned at most: 0 to 2,147,483,647, where 0 is no limit.
    pub limit: u64,
    /// The text in the digest of its tokens: `{"filter":F,"sort":S,"skip":N,"limit":N}`, in canonical Extended JSON.
    pub text: Vec<u8>,
}

impl Request {
    /// The request of a filter, a sort (`{}`, or one to four paths with 1 or -1 each), a skip and a limit.
    ///
    /// # Errors
    ///
    /// In this order: `BadFilter` with the first fault of the filter, `BadSort`, and `Range` if a number is above
    /// 2,147,483,647. `NoMemory` if memory runs out.
    pub fn new(
        alloc: Global,
        filter: Document,
        sort: Document,
        skip: u64,
        limit: u64,
    ) -> Result<Request, Refused>
        ensures request { IfOk result (λ r.
            request_of (pairs filter) (pairs sort) skip limit ≡ Ok (request_view r)) }
        ensures refused { IfErr result
            (IsRefusedPart (request_of (pairs filter) (pairs sort) skip limit)) }
    {
        let parsed = read_filter(alloc, &filter)?;
        check_rest(&sort, skip, limit)?;
        let pairs = read_sort(alloc, &sort)?;
        let text = text_of(alloc, &filter, &sort, skip, limit)?;
        Ok(Request {
            filter: parsed,
            sort: pairs,
            skip,
            limit,
            text,
        })
    }
}

/// The filter of a document.
fn read_filter(alloc: Global, document: &Document) -> Result<Filter, Refused>
    ensures filter { IfOk result (λ f. filter_of (pairs document.now) ≡ Ok (filter_tree f)) }
    ensures fault { IfErr result
        (IsRefusedPart (error_as bad_filter (filter_of (pairs document.now)))) }
{
    match parse(alloc, document) {
        Ok(filter) => Ok(filter),
        Err(fault) => match fault.kind {
            FilterFaultKind::NoMemory => Err(Refused::NoMemory),
            _ => Err(Refused::BadFilter(fault)),
        },
    }
}

/// The text of a request.
fn text_of(
    alloc: Global,
    filter: &Document,
    sort: &Document,
    skip: u64,
    limit: u64,
) -> Result<Vec<u8>, NoMemory>
    ensures { IfOk result (λ v.
        v.items ≡ request_text (pairs filter.now) (pairs sort.now) skip limit) }
{
    let sort = written_sort(alloc, sort)?;
    let mut text = Vec::new(alloc);
    text.extend_from_slice(b"{\"filter\":")?;
    write_doc(filter, &mut text)?;
    text.extend_from_slice(b",\"sort\":")?;
    write_doc(&sort, &mut text)?;
    write_counts(skip, limit, &mut text)?;
    Ok(text)
}

/// Appends a skip and a limit, and the end.
fn write_counts(skip: u64, limit: u64, text: &mut Vec<u8>) -> Result<(), NoMemory>
    ensures { OnOk result (text.new.items ≡ text.old.items ++ (codes ",\"skip\":"
        ++ (decimal skip ++ (codes ",\"limit\":" ++ (decimal limit ++ codes "}"))))) }
{
    text.extend_from_slice(b",\"skip\":")?;
    write_number(skip, text)?;
    text.extend_from_slice(b",\"limit\":")?;
    write_number(limit, text)?;
    text.extend_from_slice(b"}")
}

/// A sort with each direction as an int32.
fn written_sort(alloc: Global, sort: &Document) -> Result<Document, NoMemory>
    ensures { IfOk result (λ d. pairs d ≡ sort_written (pairs sort.now)) }
{
    let mut written = Document::new(alloc);
    let mut remaining = Tree::Doc(sort).parts();
    while let Some(next) = Tree::next(&remaining) {
        let name = String::from_str(alloc, next.0)?;
        written.push(name, written_direction(next.1))?;
        remaining = next.2;
    }
    Ok(written)
}

/// 1 for up, -1 for down; 0 if a value is neither.
fn written_direction<N: Reading>(value: N) -> Value
    ensures { tree_of result ≡ leaf (int32 (direction_number (direction_of (N.tree value)))) }
{
    match direction_of(value) {
        Some(Dir::Up) => Value::Int32(1),
        Some(Dir::Down) => Value::Int32(-1),
        None => Value::Int32(0),
    }
}

/// The most paths of a sort.
const MOST: usize = 4;

/// Refuses a document that is no sort, and counts that are too great. It takes no memory.
#[tactic(auto, using(crate::proofs::RequestLemmas::no_sort_part, crate::proofs::RequestLemmas::skip_part, crate::proofs::RequestLemmas::limit_part))]
fn check_rest(sort: &Document, skip: u64, limit: u64) -> Result<(), Refused>
    ensures sort { OnOk result (is_some (sort_of (pairs sort.now)) ≡ true) }
    ensures counts { OnOk result ((skip ≤ greatest_count) × (limit ≤ greatest_count)) }
    ensures refused { IfErr result (λ r.
        rest_part (pairs sort.now) skip limit ≡ Err (reason_of r)) }
{
    if !is_sort(sort) {
        return Err(Refused::BadSort);
    }
    if skip > GREATEST_COUNT || limit > GREATEST_COUNT {
        return Err(Refused::Range);
    }
    Ok(())
}

/// Whether a document is a sort. It takes no memory.
fn is_sort(document: &Document) -> bool
    ensures { result ≡ is_some (sort_of (pairs document.now)) }
{
    if document.len() > MOST {
        return false;
    }
    let pairs = Tree::Doc(document).parts();
    if !are_distinct::<Tree<'_>>(pairs) {
        return false;
    }
    are_sort_pairs::<Tree<'_>>(pairs)
}

/// The sort that a document describes. It fails only if memory runs out.
fn read_sort(alloc: Global, document: &Document) -> Result<Vec<(Path, Dir)>, Refused>
    requires { is_some (sort_of (pairs document.now)) ≡ true }
    ensures sort { IfOk result (λ v. sort_of (pairs document.now) ≡ Some (sort_paths v.items)) }
    ensures fault { IfErr result (λ r. r ≡ NoMemory) }
{
    read_pairs::<Tree<'_>>(alloc, Tree::Doc(document).parts())
}

/// Whether no name occurs twice.
fn are_distinct<N: Reading>(pairs: N::Rest) -> bool
    ensures { result ≡ are_distinct (pair_names (N.remaining pairs)) }
{
    let mut remaining = pairs;
    while let Some(next) = N::next(&remaining) {
        if has_name::<N>(next.2, next.0) {
            return false;
        }
        remaining = next.2;
    }
    true
}

fn has_name<N: Reading>(pairs: N::Rest, name: &str) -> bool
    ensures { result ≡ list_any (bytes_eq name.now) (pair_names (N.remaining pairs)) }
{
    let mut remaining = pairs;
    while let Some(next) = N::next(&remaining) {
        if name == next.0 {
            return true;
        }
        remaining = next.2;
    }
    false
}

/// Whether each name is a path, and each value a direction. It takes no memory.
fn are_sort_pairs<N: Reading>(pairs: N::Rest) -> bool
    ensures { result ≡ is_some (sort_pairs (N.remaining pairs)) }
{
    let mut remaining = pairs;
    while let Some(next) = N::next(&remaining) {
        if Path::check(next.0).is_err() {
            return false;
        }
        if direction_of(next.1).is_none() {
            return false;
        }
        remaining = next.2;
    }
    true
}

fn read_pairs<N: Reading>(alloc: Global, pairs: N::Rest) -> Result<Vec<(Path, Dir)>, Refused>
    ensures sort { IfOk result (λ v. sort_pairs (N.remaining pairs) ≡ Some (sort_paths v.items)) }
    ensures fault { IfErr result (λ r.
        IsRefusedAs r BadSort (sort_pairs (N.remaining pairs) ≡ None)) }
{
    let mut sort = Vec::new(alloc);
    let mut remaining = pairs;
    while let Some(next) = N::next(&remaining) {
        let Some(dir) = direction_of(next.1) else {
            return Err(Refused::BadSort);
        };
        match Path::parse(alloc, next.0) {
            Ok(path) => sort.push((path, dir))?,
            Err(PathFault::NoMemory) => return Err(Refused::NoMemory),
            Err(_) => return Err(Refused::BadSort),
        }
        remaining = next.2;
    }
    Ok(sort)
}

/// 1 is up, and -1 down.
fn direction_of<N: Reading>(value: N) -> Option<Dir>
    ensures { result ≡ direction_of (N.tree value) }
{
    let number = match value.leaf() {
        Some(Scalar::Int32(number)) => i64::from(number),
        Some(Scalar::Int64(number)) => number,
        _ => return None,
    };
    match number {
        1 => Some(Dir::Up),
        -1 => Some(Dir::Down),
        _ => None,
    }
}
