//! Documents sorted by one path after the other, so that only the keys on one path are in memory at a time.

ghost use Rattle.std.specs.Prelude.{◌≡◌, ◌<◌, ◌≤◌, ◌∷◌, ◌++◌, [], All, IfOk, List, None, length, map, option_map, take, ℕ};
ghost use Rattle.std.specs.List.Sorted.{IsPermutation, IsSortedBy};
ghost use Rattle.std.specs.Ordering.{is_lt};
ghost use Rattle.bd_value.specs.Tree.{Doc};
ghost use Rattle.bd_bson_dump.specs.Collection.{documents};
ghost use Rattle.bd_path.specs.Sort.{SortPath, sort_paths};
ghost use Rattle.bd_path.specs.PathNames.{names_of};
ghost use Rattle.bd_cursor_model.specs.Answer.{before};
ghost use Rattle.bd_cursor_sort.specs.inside.Ranking.{AreRanked, keyed, keyed_cmp, keyed_row, next_rank, place_of, ranks_from, rows_cmp};
ghost use Rattle.bd_cursor_sort.specs.Selection.{order_of_keys};
ghost use Rattle.bd_cursor_sort.specs.inside.Sorting.{AreFirst};

use crate::sort_key::SortKey;
use bd_bson_dump::Dump;
use bd_path::{Dir, Path};
use bd_value::NoMemory;
use std::alloc::{AllocError, Global};
use std::cmp::Ordering;

/// The places of the first n of some documents, in order. No value is copied.
pub(crate) fn first_in_order(
    alloc: Global,
    dump: &Dump,
    sort: &[(Path, Dir)],
    places: &[u32],
    most: usize,
) -> Result<Vec<u32>, NoMemory>
    requires { All (λ p. p < length (documents dump.now)) places.now }
    ensures { IfOk result (λ v. AreFirst (before
        (order_of_keys (documents dump.now) (sort_paths sort.now))) most places.now v.items) }
{
    let mut ranked = unranked(alloc, places)?;
    for (path, dir) in sort {
        ranked = ranked_by(alloc, dump, path, *dir, &ranked)?;
    }
    first_places_of(alloc, &ranked, most)
}

/// A document with its rank by some paths of a sort: the lower rank is first, and documents that tie have one rank.
#[derive(Clone, Copy)]
pub(crate) struct Ranked {
    pub rank: u32,
    pub place: u32,
}

/// The documents at some places, in the order of the places. It fails if memory runs out, and if a rank would not fit in
/// 32 bits.
fn unranked(alloc: Global, places: &[u32]) -> Result<Vec<Ranked>, NoMemory>
    ensures ranked { IfOk result (λ v. (ds : List Doc) → AreRanked ds [] places.now v.items) }
    ensures fits_u32 { IfOk result (λ v. length places.now ≤ 4294967295) }
{
    if places.len() > u32::MAX as usize {
        return Err(AllocError);
    }
    let mut sorted = Vec::from_slice(alloc, places)?;
    sorted.sort_unstable();
    let mut ranked = Vec::with_capacity(alloc, places.len())?;
    let all: &[u32] = &sorted;
    for place in all {
        ranked.push(Ranked {
            rank: 0,
            place: *place,
        })?;
    }
    Ok(ranked)
}

/// The documents in order after one more path.
fn ranked_by(
    alloc: Global,
    dump: &Dump,
    path: &Path,
    dir: Dir,
    ranked: &[Ranked],
) -> Result<Vec<Ranked>, NoMemory>
    requires below { All (λ r. r.place < length (documents dump.now)) ranked.now }
    requires fits_u32 { length ranked.now ≤ 4294967295 }
    ensures { IfOk result (λ v. (ss : List SortPath) (ps : List ℕ) →
        AreRanked (documents dump.now) ss ps ranked.now → AreRanked (documents dump.now) (ss
        ++ record { path = names_of path.now; dir = dir } ∷ []) ps v.items) }
{
    let mut rows = Vec::with_capacity(alloc, ranked.len())?;
    for one in ranked {
        rows.push(Row::of(dump, path, dir, *one))?;
    }
    sort_rows(&mut rows, dir);
    ranks_of(alloc, &rows, dir)
}

/// Sorts documents by rank, key and place, so that no two tie.
fn sort_rows(rows: &mut Vec<Row<'_>>, dir: Dir)
    ensures same { IsPermutation rows.old.items rows.new.items }
    ensures rises { IsSortedBy (λ a b.
        is_lt (rows_cmp dir (keyed_row a) (keyed_row b))) rows.new.items }
{
    rows.sort_unstable_by(|a, b| a.compare(b, dir).then(a.place.cmp(&b.place)));
}

/// The new ranks of documents in order.
fn ranks_of(alloc: Global, rows: &[Row<'_>], dir: Dir) -> Result<Vec<Ranked>, NoMemory>
    requires { length rows.now ≤ 4294967295 }
    ensures { IfOk result (λ v. v.items ≡ ranks_from dir 0 None (map keyed_row rows.now)) }
{
    let mut ranked = Vec::with_capacity(alloc, rows.len())?;
    let mut rank = 0;
    let mut last = None;
    for row in rows {
        rank = row.rank_after(last, rank, dir);
        let place = row.place;
        ranked.push(Ranked { rank, place })?;
        last = Some(*row);
    }
    Ok(ranked)
}

/// The places of the first n.
fn first_places_of(alloc: Global, ranked: &[Ranked], most: usize) -> Result<Vec<u32>, NoMemory>
    ensures { IfOk result (λ v. v.items ≡ map place_of (take most ranked.now)) }
{
    let first = &ranked[..ranked.len().min(most)];
    let mut places = Vec::with_capacity(alloc, first.len())?;
    for one in first {
        places.push(one.place)?;
    }
    Ok(places)
}

/// A document with its rank, and its key on the next path.
#[derive(Clone, Copy)]
pub(crate) struct Row<'d> {
    pub rank: u32,
    pub place: u32,
    pub key: SortKey<'d>,
}

impl<'d> Row<'d> {
    fn of(dump: &'d Dump, path: &Path, dir: Dir, ranked: Ranked) -> Row<'d>
        requires { ranked.place < length (documents dump.now) }
        ensures { keyed_row result
            ≡ keyed (documents dump.now) (record { path = names_of path.now; dir = dir }) ranked }
    {
        Row {
            rank: ranked.rank,
            place: ranked.place,
            key: SortKey::of(dump, ranked.place, path, dir),
        }
    }

    /// By rank, and within one rank by key.
    fn compare(&self, other: &Row<'_>, dir: Dir) -> Ordering
        ensures { result ≡ keyed_cmp dir (keyed_row self.now) (keyed_row other.now) }
    {
        match self.rank.cmp(&other.rank) {
            Ordering::Equal => self.key.compare(&other.key, dir),
            unequal => unequal,
        }
    }

    /// The new rank of the next document: that of the last one if they tie.
    fn rank_after(&self, last: Option<Row<'_>>, rank: u32, dir: Dir) -> u32
        requires { rank < 4294967295 }
        ensures { result
            ≡ next_rank dir rank (option_map keyed_row last.entry) (keyed_row self.now) }
    {
        match last {
            Some(last) if last.compare(self, dir).is_lt() => rank + 1,
            _ => rank,
        }
    }
}
