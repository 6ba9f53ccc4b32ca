//! The places of the documents that match and come after the last one returned, in the order of a sort.

ghost use Rattle.std.specs.Prelude.{◌≡◌, ◌&&◌, ◌<◌, ◌≤◌, ℕ, All, IfOk, IfSome, IsOk, List, OnOk, Some, length, take};
ghost use Rattle.bd_cursor_model.specs.Answer.{at_most, before};
ghost use Rattle.bd_cursor_model.specs.Laws.{IsAscending};
ghost use Rattle.bd_cursor_model.specs.Source.{is_after, passes, places_after};
ghost use Rattle.bd_bson_dump.specs.Collection.{documents};
ghost use Rattle.bd_query_filter.specs.Filter.{filter_tree};
ghost use Rattle.bd_path.specs.Sort.{SortPath, sort_paths};
ghost use Rattle.bd_cursor_sort.specs.Selection.{matches_at_of, order_of_keys, selection_of};
ghost use Rattle.bd_cursor_sort.specs.inside.Sorting.{AreFirst, IsEnd, IsPivot, has_enough, is_before_pivot, pivot_place};

use crate::pivot::Pivot;
use crate::ranking::first_in_order;
use bd_bson_dump::Dump;
use bd_cursor_model::PlaceSource;
use bd_cursor_request::Request;
use bd_path::{Dir, Path};
use bd_query::matches;
use bd_query_filter::Filter;
use bd_value::NoMemory;
use std::alloc::Global;

/// The fewest places that are kept before they are sorted, so that few are not sorted often.
const FEWEST: usize = 256;

/// Places are sorted when this many times as many as are requested are kept.
const TIMES: usize = 4;

/// The places of the documents that match and come after the last one returned, in the order of the sort, at most `most`. It takes
/// memory for a multiple of the requested places, not for all that match. It fails only if memory runs out.
pub fn sorted_places<P: PlaceSource + Drop>(
    alloc: Global,
    dump: &Dump,
    request: &Request,
    source: P,
    last: Option<u32>,
    most: Option<u64>,
) -> Result<Vec<u32>, NoMemory>
    requires serves { P.serves source (length (documents dump.now))
        (matches_at_of (documents dump.now) (filter_tree request.now.filter)) }
    requires in_range { IfSome last (λ p. p < length (documents dump.now)) }
    ensures places { IfOk result (λ v. v.items
        ≡ at_most most (places_after (selection_of (documents dump.now) request.now) last)) }
    // If none is requested, it takes no memory.
    ensures none { most ≡ Some 0 → IsOk result }
{
    let limit = limit_of(most, dump.len() as usize);
    if limit == 0 {
        return Ok(Vec::new(alloc));
    }
    let last = last_pivot(alloc, dump, &request.sort, last)?;
    first_places(alloc, dump, request, source, &last, limit)
}

/// The same from a source that returns places in the order of the sort: it stops once the last one is found, and sorts nothing.
/// It fails only if memory runs out.
pub fn places_in_order<P: PlaceSource + Drop>(
    alloc: Global,
    dump: &Dump,
    request: &Request,
    mut source: P,
    last: Option<u32>,
    most: Option<u64>,
) -> Result<Vec<u32>, NoMemory>
    requires serves { P.serves source (length (documents dump.now))
        (matches_at_of (documents dump.now) (filter_tree request.now.filter)) }
    requires order { IsAscending
        (before (order_of_keys (documents dump.now) (sort_paths request.now.sort.items)))
        (P.remaining source) }
    requires in_range { IfSome last (λ p. p < length (documents dump.now)) }
    ensures { IfOk result (λ v. v.items
        ≡ at_most most (places_after (selection_of (documents dump.now) request.now) last)) }
{
    let pivot = last_pivot(alloc, dump, &request.sort, last)?;
    let last = &pivot;
    let mut found = Vec::new(alloc);
    while !is_full(most, found.len()) {
        let Some(place) = source.next_place() else {
            break;
        };
        if is_wanted(dump, request, last, place) {
            found.push(place)?;
        }
    }
    Ok(found)
}

/// Whether the document at a place matches.
pub fn is_match(dump: &Dump, filter: &Filter, place: u32) -> bool
    requires { place < length (documents dump.now) }
    ensures { result ≡ matches_at_of (documents dump.now) (filter_tree filter.now) place }
{
    matches(filter, dump.document(place).value())
}

/// How many of `count` places are returned at most.
fn limit_of(most: Option<u64>, count: usize) -> usize
    ensures taken { (ps : List ℕ) → length ps ≤ count → take result ps ≡ at_most most ps }
    ensures none { most ≡ Some 0 → result ≡ 0 }
{
    match most {
        Some(most) => (most as usize).min(count),
        None => count,
    }
}

/// Whether as many places were found as are requested at most.
fn is_full(most: Option<u64>, count: usize) -> bool
    ensures { result ≡ has_enough most count }
{
    match most {
        Some(most) => count as u64 >= most,
        None => false,
    }
}

/// The pivot for the last document returned, if any.
fn last_pivot<'d>(
    alloc: Global,
    dump: &'d Dump,
    sort: &'d [(Path, Dir)],
    last: Option<u32>,
) -> Result<Option<Pivot<'d>>, NoMemory>
    requires { IfSome last (λ p. p < length (documents dump.now)) }
    ensures place { IfOk result (λ m. pivot_place m ≡ last) }
    ensures keys { IfOk result (λ m.
        IfSome m (IsPivot (documents dump.now) (sort_paths sort.now))) }
{
    match last {
        Some(place) => Ok(Some(Pivot::new(alloc, dump, sort, place)?)),
        None => Ok(None),
    }
}

/// The first n places of the documents that match and come after the last one returned. A document is compared with the last
/// of the first n so far, and mostly left out.
fn first_places<P: PlaceSource + Drop>(
    alloc: Global,
    dump: &Dump,
    request: &Request,
    mut source: P,
    last: &Option<Pivot<'_>>,
    most: usize,
) -> Result<Vec<u32>, NoMemory>
    requires serves { P.serves source (length (documents dump.now))
        (matches_at_of (documents dump.now) (filter_tree request.now.filter)) }
    requires last { IfSome last.now
        (IsPivot (documents dump.now) (sort_paths request.now.sort.items)) }
    requires some { 0 < most }
    ensures { IfOk result (λ v. v.items ≡ take most
        (places_after (selection_of (documents dump.now) request.now) (pivot_place last.now))) }
{
    let capacity = most.saturating_mul(TIMES).max(FEWEST);
    let mut places = Vec::new(alloc);
    let mut end = None;
    while let Some(place) = source.next_place() {
        if may_be_first(dump, request, last, &end, place) {
            if places.len() >= capacity {
                end = keep_first(alloc, dump, &request.sort, &mut places, most)?;
            }
            places.push(place)?;
        }
    }
    first_in_order(alloc, dump, &request.sort, &places, most)
}

/// Sorts places and keeps the first n. If there are n, it returns the pivot for the last one: no document after it is among
/// the first n.
fn keep_first<'d>(
    alloc: Global,
    dump: &'d Dump,
    sort: &'d [(Path, Dir)],
    places: &mut Vec<u32>,
    most: usize,
) -> Result<Option<Pivot<'d>>, NoMemory>
    requires below { All (λ p. p < length (documents dump.now)) places.old.items }
    requires some { 0 < most }
    ensures first { OnOk result (AreFirst (before (order_of_keys
        (documents dump.now) (sort_paths sort.now))) most places.old.items places.new.items) }
    ensures pivot { IfOk result (λ m.
        IfSome m (IsPivot (documents dump.now) (sort_paths sort.now))) }
    ensures end { IfOk result (λ m. IsEnd most places.new.items (pivot_place m)) }
{
    let first = first_in_order(alloc, dump, sort, places, most)?;
    *places = first;
    if places.len() < most {
        return Ok(None);
    }
    let pivot = Pivot::new(alloc, dump, sort, places[most - 1])?;
    Ok(Some(pivot))
}

/// Whether the document at a place is selected, and comes before the end of the first ones.
fn may_be_first(
    dump: &Dump,
    request: &Request,
    last: &Option<Pivot<'_>>,
    end: &Option<Pivot<'_>>,
    place: u32,
) -> bool
    requires last { IfSome last.now
        (IsPivot (documents dump.now) (sort_paths request.now.sort.items)) }
    requires end { IfSome end.now
        (IsPivot (documents dump.now) (sort_paths request.now.sort.items)) }
    requires below { place < length (documents dump.now) }
    ensures { let by = order_of_keys (documents dump.now) (sort_paths request.now.sort.items)
        in result ≡ (passes (matches_at_of (documents dump.now) (filter_tree request.now.filter)) by
        (pivot_place last.now) place && is_before_pivot (before by) (pivot_place end.now) place) }
{
    is_wanted(dump, request, last, place) && is_ahead(dump, end, place)
}

/// Whether the document at a place matches and comes after the last one returned.
fn is_wanted(dump: &Dump, request: &Request, last: &Option<Pivot<'_>>, place: u32) -> bool
    requires last { IfSome last.now
        (IsPivot (documents dump.now) (sort_paths request.now.sort.items)) }
    requires below { place < length (documents dump.now) }
    ensures { result ≡ passes (matches_at_of (documents dump.now) (filter_tree request.now.filter))
        (order_of_keys (documents dump.now) (sort_paths request.now.sort.items))
        (pivot_place last.now) place }
{
    is_match(dump, &request.filter, place) && is_after_pivot(dump, last, place)
}

/// Whether the document at a place comes after a pivot.
fn is_after_pivot(dump: &Dump, pivot: &Option<Pivot<'_>>, place: u32) -> bool
    requires { place < length (documents dump.now) }
    ensures { (ss : List SortPath) → IfSome pivot.now (IsPivot (documents dump.now) ss) → result
        ≡ is_after (before (order_of_keys (documents dump.now) ss)) (pivot_place pivot.now) place }
{
    match pivot {
        Some(pivot) => pivot.compare(dump, place).is_gt(),
        None => true,
    }
}

/// Whether it comes before a pivot.
fn is_ahead(dump: &Dump, pivot: &Option<Pivot<'_>>, place: u32) -> bool
    requires { place < length (documents dump.now) }
    ensures { (ss : List SortPath) →
        IfSome pivot.now (IsPivot (documents dump.now) ss) → result ≡ is_before_pivot
        (before (order_of_keys (documents dump.now) ss)) (pivot_place pivot.now) place }
{
    match pivot {
        Some(pivot) => pivot.compare(dump, place).is_lt(),
        None => true,
    }
}
