//! A document that others are compared with.

ghost use Rattle.std.specs.Prelude.{◌≡◌, ◌<◌, IfOk, List, length};
ghost use Rattle.std.specs.Ordering.{nat_cmp, ordering_then};
ghost use Rattle.bd_bson_dump.specs.Collection.{documents, document_at};
ghost use Rattle.bd_path.specs.Sort.{SortPath, sort_paths};
ghost use Rattle.bd_cursor_sort.specs.inside.Sorting.{IsPivot, pivot_cmp, pivots_in};
ghost use Rattle.bd_cursor_sort.specs.Selection.{order_of_keys};

use crate::sort_key::SortKey;
use bd_bson_dump::Dump;
use bd_path::{Dir, Path};
use bd_value::NoMemory;
use std::alloc::Global;
use std::cmp::Ordering;

/// A document that others are compared with: its place, and its key on each path of a sort, which is found once.
#[derive(Drop)]
pub(crate) struct Pivot<'d> {
    pub place: u32,
    pub keys: Vec<PivotKey<'d>>,
}

/// One path of a sort, its direction, and the key of the pivot on it.
#[derive(Clone, Copy)]
pub(crate) struct PivotKey<'d> {
    pub path: &'d Path,
    pub dir: Dir,
    pub key: SortKey<'d>,
}

impl<'d> Pivot<'d> {
    /// The pivot for the document at a place.
    pub(crate) fn new(
        alloc: Global,
        dump: &'d Dump,
        sort: &'d [(Path, Dir)],
        place: u32,
    ) -> Result<Pivot<'d>, NoMemory>
        requires { place < length (documents dump.now) }
        ensures place { IfOk result (λ m. m.place ≡ place) }
        ensures keys { IfOk result (IsPivot (documents dump.now) (sort_paths sort.now)) }
    {
        let mut keys = Vec::with_capacity(alloc, sort.len())?;
        for (path, dir) in sort {
            keys.push(PivotKey {
                path,
                dir: *dir,
                key: SortKey::of(dump, place, path, *dir),
            })?;
        }
        Ok(Pivot { place, keys })
    }

    /// How the document at a place compares to it: by their keys, and if these are equal, by their places.
    pub(crate) fn compare(&self, dump: &Dump, place: u32) -> Ordering
        requires { place < length (documents dump.now) }
        ensures { (ss : List SortPath) → IsPivot (documents dump.now) ss self.now →
            result ≡ ordering_then (order_of_keys (documents dump.now) ss place self.now.place)
            (nat_cmp place self.now.place) }
    {
        Pivot::compare_keys(&self.keys, dump, place).then(place.cmp(&self.place))
    }

    /// The first key that differs from that of the document at a place decides.
    fn compare_keys(keys: &[PivotKey<'_>], dump: &Dump, place: u32) -> Ordering
        requires { place < length (documents dump.now) }
        ensures { result ≡ pivot_cmp (pivots_in keys.now) (document_at (documents dump.now) place) }
    {
        for one in keys {
            let order = SortKey::of(dump, place, one.path, one.dir).compare(&one.key, one.dir);
            if order != Ordering::Equal {
                return order;
            }
        }
        Ordering::Equal
    }
}
