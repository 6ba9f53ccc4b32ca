//! How documents are reached: by which index, or without one.

ghost use Rattle.std.specs.Prelude.{[], ◌≡◌, ◌≤◌, ◌<◌, ◌↔◌, IfErr, IfOk, IfSome, IsOk, IsTrue, List, OnErr, OnOk, Some, drop, if◌then◌else◌, is_some, length, map, position, take, unwrap_or, ℕ};
ghost use Rattle.std.specs.Option.{option_or};
ghost use Rattle.std.specs.List.Sorted.{IsStrictlyIncreasing};
ghost use Rattle.bd_cursor_model.specs.Answer.{at_most, is_empty};
ghost use Rattle.bd_cursor_model.specs.Session.{has_index, is_on};
ghost use Rattle.bd_cursor_model.specs.Source.{IsSource, places_after};
ghost use Rattle.bd_index_bounds.specs.BoundsView.{bounds_view};
ghost use Rattle.bd_bson_dump.specs.Collection.{documents};
ghost use Rattle.bd_bson_dump.specs.declared.collection.Dump.{Dump};
ghost use Rattle.bd_query_filter.specs.Filter.{filter_tree};
ghost use Rattle.bd_index.specs.IndexView.{AreIndexesOf, IsIndexOf};
ghost use Rattle.bd_path.specs.{PathNames.path_text, Sort.sort_paths};
ghost use Rattle.bd_cursor_request.specs.declared.results.Refused.TheVariants.{NoIndex, NoMemory};
ghost use Rattle.bd_cursor_sort.specs.Selection.{matches_at_of, selection_of};
ghost use Rattle.bd_cursor.specs.Access.{IsAccessOf, access_of, access_path, by_bounds, by_none, by_order, find_map, index_key};
ghost use Rattle.bd_cursor.specs.SessionView.{hint_of};
ghost use Rattle.bd_cursor.specs.inside.Access.{Reaches};
ghost use Rattle.bd_cursor.specs.Access.{index_key_bounds, named_access, scanned, serving_bounds, walk_dir, way_of};

use bd_bson_dump::Dump;
use bd_cursor_model::{PlaceSource, Scan};
use bd_cursor_request::{Refused, Request};
use bd_cursor_sort::{places_in_order, sorted_places};
use bd_index::Index;
use bd_index_bounds::Bounds;
use bd_path::{Dir, Path};
use bd_query_filter::Filter;
use bd_value::NoMemory;
use std::alloc::Global;
use std::marker::Model;

/// How the documents of an answer are searched. It never changes an answer.
#[derive(Drop)]
pub enum Choice {
    /// Each document is examined.
    Scan,
    /// By the index on that path, which must exist.
    Index(Path),
    /// By an index that serves, if any.
    Auto,
}

/// How the documents of an answer are reached: its access path.
#[derive(Drop)]
pub enum Access<'a> {
    /// Each is examined.
    Scan,
    /// Those with an entry inside bounds of an index; without bounds those with an entry.
    Bounded {
        index: &'a Index,
        bounds: Option<Bounds<'a>>,
    },
    /// All, in the order of an index.
    Walk {
        index: &'a Index,
        dir: Dir,
    },
}

impl<'a> Access<'a> {
    /// The access path of a request to the dump of these indexes, by a choice: each document is examined; or by the named
    /// index, in the way in which it serves; or by the first index whose bounds serve, otherwise by the first that has
    /// the order of the sort. It reads no document.
    ///
    /// # Errors
    ///
    /// `NoIndex` if the named index does not exist. `NoMemory` if memory runs out.
    pub fn of(
        alloc: Global,
        dump: &Dump,
        indexes: &'a [Index],
        request: &'a Request,
        choice: &Choice,
    ) -> Result<Access<'a>, Refused>
        requires { AreIndexesOf dump.now indexes.now }
        ensures path { IfOk result (λ a.
            access_path a ≡ access_of (documents dump.now) (filter_tree request.now.filter)
            (sort_paths request.now.sort.items) (way_of choice.now) (map index_key indexes.now)) }
        ensures leads { IfOk result (IsAccessOf dump.now request.now) }
        ensures has_index { OnOk result
            (IsTrue (has_index (map index_key indexes.now) (hint_of choice.now))) }
        ensures refused { IfErr result (λ why. why
            ≡ (if has_index (map index_key indexes.now) (hint_of choice.now)
            then NoMemory else NoIndex)) }
        // A scan takes no memory.
        ensures scan { way_of choice.now ≡ by_none → IsOk result }
    {
        match choice {
            Choice::Scan => Ok(Access::Scan),
            Choice::Index(path) => match index_on(indexes, path) {
                Some(position) => Ok(named_access(alloc, &indexes[position], request)?),
                None => Err(Refused::NoIndex),
            },
            Choice::Auto => Ok(serving_access(alloc, indexes, request)?),
        }
    }

    /// Whether each document is examined. It takes no memory.
    pub fn is_scan(&self) -> bool
        ensures { IsTrue result ↔ (access_path self.now ≡ scanned) }
    {
        matches!(self, Access::Scan)
    }

    /// The places of the documents that match and come after the last one returned, in the order of the sort, at most `most`:
    /// the same on each access path. If the documents are reached in that order, nothing is sorted. It fails only if memory
    /// runs out.
    pub fn places(
        &self,
        alloc: Global,
        dump: &Dump,
        request: &Request,
        last: Option<u32>,
        most: Option<u64>,
    ) -> Result<Vec<u32>, NoMemory>
        requires leads { IsAccessOf dump.now request.now self.now }
        requires in_range { IfSome last (λ p. p < length (documents dump.now)) }
        ensures { IfOk result (λ v. v.items
            ≡ at_most most (places_after (selection_of (documents dump.now) request.now) last)) }
    {
        match self {
            Access::Scan => {
                let scan = Scan::new(dump.len());
                ascending_places(alloc, dump, request, scan, last, most)
            }
            Access::Bounded { index, bounds } => {
                let found = index.places(alloc, dump, bounds.as_ref())?;
                let places = found.places;
                let source = PlaceList { places, at: 0 };
                ascending_places(alloc, dump, request, source, last, most)
            }
            Access::Walk { index, dir } => {
                let walk = index.walk(alloc, dump, *dir)?;
                places_in_order(alloc, dump, request, walk, last, most)
            }
        }
    }
}

/// The access path by a named index.
#[tactic(auto, using(crate::proofs::AccessLemmas::named_other, crate::proofs::AccessLemmas::walk_leads))]
fn named_access<'a>(
    alloc: Global,
    index: &'a Index,
    request: &'a Request,
) -> Result<Access<'a>, NoMemory>
    ensures { IfOk result (λ a. (dump : Dump) → IsIndexOf dump index.now →
        Reaches dump request.now (named_access (documents dump) (filter_tree request.now.filter)
        (sort_paths request.now.sort.items) (index_key index.now)) a) }
{
    if let Some(bounds) = serving_bounds(alloc, index, &request.filter)? {
        let bounds = Some(bounds);
        return Ok(Access::Bounded { index, bounds });
    }
    if let Some(dir) = walk_dir(index, &request.sort) {
        return Ok(Access::Walk { index, dir });
    }
    if index.sparse() {
        return Ok(Access::Scan);
    }
    let bounds = None;
    Ok(Access::Bounded { index, bounds })
}

/// By the bounds of the first index that serves by them, otherwise in the order of the first one that has the order of the sort.
fn serving_access<'a>(
    alloc: Global,
    indexes: &'a [Index],
    request: &'a Request,
) -> Result<Access<'a>, NoMemory>
    ensures { IfOk result (λ a. (dump : Dump) → AreIndexesOf dump indexes.now →
        let index_keys = map index_key indexes.now in
        let f = filter_tree request.now.filter in
        let bounded = find_map (by_bounds (documents dump) f) index_keys in
        let ordered = find_map (by_order (sort_paths request.now.sort.items)) index_keys in
        Reaches dump request.now (unwrap_or (option_or bounded ordered) scanned) a) }
{
    for index in indexes {
        if let Some(bounds) = serving_bounds(alloc, index, &request.filter)? {
            let bounds = Some(bounds);
            return Ok(Access::Bounded { index, bounds });
        }
    }
    Ok(walk_or_scan(indexes, request))
}

/// In the order of the first index that has that of the sort, otherwise by a scan.
fn walk_or_scan<'a>(indexes: &'a [Index], request: &Request) -> Access<'a>
    ensures { (dump : Dump) → AreIndexesOf dump indexes.now →
        let by = by_order (sort_paths request.now.sort.items) in
        Reaches dump request.now
        (unwrap_or (find_map by (map index_key indexes.now)) scanned) result }
{
    for index in indexes {
        if let Some(dir) = walk_dir(index, &request.sort) {
            return Access::Walk { index, dir };
        }
    }
    Access::Scan
}

/// The first index on a path, if any, as its position in the list. It takes no memory.
pub(crate) fn index_on(indexes: &[Index], path: &Path) -> Option<usize>
    ensures found { result
        ≡ position (is_on (path_text path.now)) (map index_key indexes.now) }
    ensures has_index { is_some result
        ≡ has_index (map index_key indexes.now) (Some (path_text path.now)) }
{
    indexes
        .iter()
        .position(|index| path.as_str() == index.path().as_str())
}

/// The bounds that a filter gives to an index, if the index serves by them. It fails only if memory runs out.
fn serving_bounds<'a>(
    alloc: Global,
    index: &Index,
    filter: &'a Filter,
) -> Result<Option<Bounds<'a>>, NoMemory>
    ensures { IfOk result (λ b. (dump : Dump) →
        IsIndexOf dump index.now → bounds_view b ≡ serving_bounds (index_key index.now)
        (index_key_bounds (documents dump) (filter_tree filter.now) (index_key index.now))) }
{
    let Some(bounds) = Bounds::of(alloc, filter, index.path(), index.multikey())? else {
        return Ok(None);
    };
    if index.sparse() && bounds.has_null() {
        return Ok(None);
    }
    Ok(Some(bounds))
}

/// The direction in which an index has the order of a sort, if any. It takes no memory.
fn walk_dir(index: &Index, sort: &[(Path, Dir)]) -> Option<Dir>
    ensures { result ≡ walk_dir (index_key index.now) (sort_paths sort.now) }
{
    let ((path, dir), others) = sort.split_first()?;
    if others.is_empty() && !index.sparse() && path.as_str() == index.path().as_str() {
        Some(*dir)
    } else {
        None
    }
}

/// The places from a source that returns them ascending: without a sort, this is their order.
fn ascending_places<P: PlaceSource + Drop>(
    alloc: Global,
    dump: &Dump,
    request: &Request,
    source: P,
    last: Option<u32>,
    most: Option<u64>,
) -> Result<Vec<u32>, NoMemory>
    requires serves { P.serves source (length (documents dump.now))
        (matches_at_of (documents dump.now) (filter_tree request.now.filter)) }
    requires ascends { IsStrictlyIncreasing (P.remaining source) }
    requires in_range { IfSome last (λ p. p < length (documents dump.now)) }
    ensures { IfOk result (λ v. v.items
        ≡ at_most most (places_after (selection_of (documents dump.now) request.now) last)) }
{
    if request.sort.is_empty() {
        places_in_order(alloc, dump, request, source, last, most)
    } else {
        sorted_places(alloc, dump, request, source, last, most)
    }
}

/// Places in order, of which those from a position on remain.
#[derive(Drop)]
pub(crate) struct PlaceList {
    places: Vec<u32>,
    at: usize,
}

impl Model for PlaceList {
    ghost use Rattle.std.specs.Prelude.{◌≤◌, List, drop, length, ℕ};

    ghost Value = { List ℕ };

    ghost view = { λ a. drop a.at a.places.items };

    ghost invariant = { λ a. a.at ≤ length a.places.items };
}

impl PlaceList {
    /// All but the first n.
    #[tactic(auto, using(std::proofs::lemmas::List::drop_min))]
    pub(crate) fn new(places: Vec<u32>, skip: u64) -> PlaceList
        ensures { result ≡ drop skip places.items }
    {
        let at = (skip as usize).min(places.len());
        PlaceList { places, at }
    }

    /// Takes the next n places, or all that remain if there are fewer. If these are none, it takes no memory.
    pub(crate) fn take(&mut self, alloc: Global, n: u64) -> Result<Vec<u32>, NoMemory>
        ensures given { IfOk result (λ given. given.items ≡ take n self.old) }
        ensures remaining { IfOk result (λ given. self.new ≡ drop n self.old) }
        ensures none { take n self.old ≡ [] → IsOk result }
        ensures err { OnErr result (self.new ≡ self.old) }
    {
        let end = self.at + (n as usize).min(self.places.len() - self.at);
        let mut given = Vec::with_capacity(alloc, end - self.at)?;
        given.extend_from_slice(&self.places[self.at..end])?;
        self.at = end;
        Ok(given)
    }

    /// Whether nothing remains.
    #[tactic(auto, using(crate::proofs::CursorLemmas::empty_drop))]
    pub(crate) fn is_empty(&self) -> bool
        ensures { result ≡ is_empty self.now }
    {
        self.at == self.places.len()
    }
}

impl PlaceSource for PlaceList {
    ghost remaining = { λ s. s };

    ghost serves = { λ s n matches_at. IsSource n matches_at s };

    fn next_place(&mut self) -> Option<u32> {
        let place = *self.places.get(self.at)?;
        self.at += 1;
        Some(place)
    }

    ghost law = { λ s n matches_at is. is };
}
